//! Reads a record from standard input and says what is in it, or why it is refused.
#![tactic(auto)]

use record::{Opened, RecordSource, open};
use refusal::Refusal;
use rule::Rule;
use sample::{Ending, Sample, Source};
use std::io;
use std::io::Read;

/// One byte more than the longest record: what follows cannot change the answer.
const ENOUGH: u64 = 16_000_230;

/// How many samples are shown.
const FIRST_FEW: u32 = 8;

fn main(rt: HostRuntime) -> io::Result<()> {
    let mut bytes = Vec::new(rt.alloc());
    rt.stdin().take(ENOUGH).read_to_end(&mut bytes)?;
    show(&rt, &bytes)
}

fn show(rt: &impl Print, bytes: &[u8]) -> io::Result<()> {
    let mut rule = Rule::new();
    match open(bytes, &mut rule) {
        Ok(opened) => {
            show_rule(rt, &rule)?;
            show_samples(rt, bytes, opened)
        }
        Err(misfit) => println!(rt; "{misfit}"),
    }
}

fn show_rule(rt: &impl Print, rule: &Rule) -> io::Result<()> {
    let nodes = rule.nodes();
    println!(rt; "rule of {} nodes, the last is its meaning", nodes.len())?;
    for (number, node) in nodes.iter().enumerate() {
        println!(rt; "{number:4}  {node}")?;
    }
    println!(rt;
        "wait {}, reach {}, span {}",
        rule.wait(),
        rule.reach(),
        rule.span()
    )
}

fn show_samples(rt: &impl Print, bytes: &[u8], opened: Opened) -> io::Result<()> {
    let Opened { samples, start } = opened;
    println!(rt; "{samples} samples, the first at byte {start}")?;
    let mut source = RecordSource::new(bytes, start);
    // A source is peeked at and stepped, and is no iterator: its ending says why there is no more.
    for _ in 0..samples.min(FIRST_FEW) {
        match source.peek() {
            Ok(sample) => show_sample(rt, sample)?,
            Err(ending) => return show_ending(rt, ending),
        }
        source.step();
    }
    if samples > FIRST_FEW {
        println!(rt; "      and {} more", samples - FIRST_FEW)?;
    }
    Ok(())
}

// The program's own lines, which no other program would want of a `Display`.

fn show_sample(rt: &impl Print, sample: Sample) -> io::Result<()> {
    let [a, b, c, d] = sample.codes();
    println!(rt; "{:8}: {a:4} {b:4} {c:4} {d:4}", sample.stamp())
}

fn show_ending(rt: &impl Print, ending: Ending) -> io::Result<()> {
    let refusal = Refusal::from(ending);
    println!(rt; "{refusal} {} at {}", refusal.number(), refusal.place())
}
