// Prints the INFO lines, some written frames and what several terminals give together as rows of
// `+`, `-` and `0`, beside a row that names the field at each position: `1` for B1, `2` for B2, `f`
// for FA.
#![tactic(auto)]

use combining::combine::{TERMINALS, combine};
use combining::hit::{KEEP_LETTER, NONE_LETTER, PLUS_LETTER, apply_hit};
use frame::fields::{CycleBits, DownFields, Four, UpFields};
use frame::write::{write_down, write_up};
use info::info::{info0, info1, info2, info2_with, info3, info3_with, info4, info4_with};
use refusals::Refusal;
use std::io;
use symbols::{LINE_LENGTH, MINUS, NONE, PLUS};

// Gives the letter of a symbol.
fn letter(symbol: u8) -> u8 {
    match symbol {
        PLUS => b'+',
        MINUS => b'-',
        _ => b'0',
    }
}

// Prints a name and then a line's letters, which take the symbols' place.
fn show(rt: &impl Print, name: &str, line: &mut [u8]) -> io::Result<()> {
    for symbol in line.iter_mut() {
        *symbol = letter(*symbol);
    }
    rt.print(name)?;
    rt.write_all(line)?;
    rt.print("\n")
}

// Prints a name and the letters of the line that `write` writes; nothing where it refuses the line.
fn row<F: FnOnce(&mut [u8]) -> Result<(), Refusal>>(
    rt: &impl Print,
    name: &str,
    write: F,
) -> io::Result<()>
    requires { F.IsAlwaysCallable write }
{
    let mut line = [NONE; LINE_LENGTH];
    match write(&mut line) {
        Ok(()) => show(rt, name, &mut line),
        Err(_) => Ok(()),
    }
}

// Gives four bits.
fn four(first: bool, second: bool, third: bool, fourth: bool) -> Four {
    Four {
        first,
        second,
        third,
        fourth,
    }
}

// Prints the INFO lines.
fn infos(rt: &impl Print) -> io::Result<()> {
    row(rt, "INFO 0           ", |line| info0(line))?;
    row(rt, "INFO 1           ", |line| info1(line))?;
    row(rt, "INFO 2           ", |line| info2(line))?;
    row(rt, "INFO 3 D 1111    ", |line| info3(Four::all(true), line))?;
    row(
        rt,
        "INFO 3 D 1001    ",
        |line| info3(four(true, false, false, true), line),
    )?;
    row(rt, "INFO 4 E 1111    ", |line| info4(Four::all(true), line))?;
    row(
        rt,
        "INFO 4 E 0110    ",
        |line| info4(four(false, true, true, false), line),
    )
}

// Gives the fields of an upward frame with other B octets.
fn up_frame(fa: bool) -> UpFields {
    UpFields {
        b1first: 0xa5,
        b2first: 0x07,
        b1second: 0x80,
        b2second: 0x00,
        d: four(false, true, true, false),
        fa,
    }
}

// Prints frames with other B octets. FA at 1 makes N 0 downward, and its L 1 upward.
fn frames(rt: &impl Print) -> io::Result<()> {
    let down = DownFields {
        b1first: 0xa5,
        b2first: 0x0f,
        b1second: 0x01,
        b2second: 0xff,
        e: four(true, false, true, true),
        d: four(false, true, true, false),
        a: true,
        fa: true,
        m: false,
        s: true,
    };
    row(rt, "down a5 0f 01 ff ", |line| write_down(down, line))?;
    row(
        rt,
        "up   a5 07 80 00 ",
        |line| write_up(up_frame(false), line),
    )?;
    row(
        rt,
        ".. with FA 1     ",
        |line| write_up(up_frame(true), line),
    )
}

// Prints INFO 2, INFO 3 and INFO 4 as a cycle of Q and S bits sets them: in its first period, with S
// at 1, and INFO 4 in its sixth, with S at 0.
fn cycle_infos(rt: &impl Print) -> io::Result<()> {
    let bits = CycleBits {
        fa: true,
        m: true,
        s: true,
    };
    let sixth = CycleBits {
        fa: true,
        m: false,
        s: false,
    };
    let ones = Four::all(true);
    row(rt, "INFO 2 FA M S 1  ", |line| info2_with(bits, line))?;
    row(rt, "INFO 3 FA 1      ", |line| info3_with(true, ones, line))?;
    row(rt, "INFO 4 FA M S 1  ", |line| info4_with(bits, ones, line))?;
    row(
        rt,
        "INFO 4 FA 1      ",
        |line| info4_with(sixth, ones, line),
    )
}

// Prints the line that the terminals' lines give together, and below it how many of them were taken.
fn show_combined(
    rt: &impl Print,
    name: &str,
    lines: &[[u8; LINE_LENGTH]; TERMINALS],
) -> io::Result<()> {
    let mut line = [NONE; LINE_LENGTH];
    let Ok(taken) = combine(lines.as_flattened(), &mut line) else {
        return Ok(());
    };
    show(rt, name, &mut line)?;
    println!(rt; "lines taken      {taken}")
}

// Prints terminals together: none that sends, two, a third with INFO 1, and all eight.
fn combined(rt: &impl Print) -> io::Result<()> {
    let mut lines = [[NONE; LINE_LENGTH]; TERMINALS];
    show_combined(rt, "nobody sends     ", &lines)?;
    info3(four(true, false, true, true), &mut lines[0]).unwrap();
    info3(four(true, true, false, true), &mut lines[2]).unwrap();
    show_combined(rt, "D 1011 with 1101 ", &lines)?;
    info1(&mut lines[7]).unwrap();
    show_combined(rt, ".. with INFO 1   ", &lines)?;
    for line in lines.iter_mut() {
        info3(Four::all(true), line).unwrap();
    }
    show_combined(rt, "D 1111 of eight  ", &lines)
}

// Prints a hit on INFO 2: plus at 3, none at 5 and 6.
fn hit_line(rt: &impl Print) -> io::Result<()> {
    let mut hit = [KEEP_LETTER; LINE_LENGTH];
    hit[2] = PLUS_LETTER;
    hit[4] = NONE_LETTER;
    hit[5] = NONE_LETTER;
    row(rt, "INFO 2 hit kkpkn ", |line| {
        info2(line)?;
        apply_hit(line, &hit)
    })
}

fn main(rt: HostRuntime) -> io::Result<()> {
    rt.println("down             FL11111111EDAfN22222222EDM11111111EDS22222222EDL")?;
    rt.println("up               FL11111111LDLfL22222222LDL11111111LDL22222222LDL")?;
    infos(&rt)?;
    frames(&rt)?;
    cycle_infos(&rt)?;
    combined(&rt)?;
    hit_line(&rt)
}
