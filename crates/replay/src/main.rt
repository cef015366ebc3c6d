// The replay program of document 01: event records on standard input, a line for each on standard output.

#![tactic(auto)]

fn main(rt: HostRuntime) {
    play::play(&mut rt.stdin(), &rt);
}
