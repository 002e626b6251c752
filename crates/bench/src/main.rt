// The bench: a book on standard input, its report on standard output, 64 KiB of text and 64 KiB of
// room at a time.
#![tactic(auto)]

fn main(rt: HostRuntime) {
    let mut room = [0u8; 65_536];
    driver::run::run(&rt, &mut room, usize::MAX);
}
