// A settings file on standard input is played, and what it gives is printed on standard output. A program is tried on one input, so each
// example is a program of its own.
#![tactic(auto)]

fn main(rt: HostRuntime) {
    player::play(&rt);
}
