// The replay program on a longer stored input: every cause, and every refusal that it can give, which are 2, 3, 5, 6, 7 and 8.
// 1 cannot come, for an opening is consistent and each call keeps it so; 4 is for openings and threshold frames, of which it has none;
// 9 cannot, for the smallest ACK frame takes at most 20 of the 1,200 bytes; the others are for reports and readers.
// tools/make-replay-input makes the input, section by section.

#![tactic(auto)]

fn main(rt: HostRuntime) {
    play::play(&mut rt.stdin(), &rt);
}
