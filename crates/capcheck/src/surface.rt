//! What the root of the program hands on: each call once, and each variant of an order.

use crate::{
    JudgeFault, JudgeToFault, Order, Refusal, VectorVerdict, Verdict, explain_text, judge,
    judge_bytes, judge_in, judge_origins, judge_to, read_words, round_text, run, vector_text,
    vectors, verdict_text,
};
use cap_bounds::round;
use cap_log::{FailingSource, SliceSink, SliceSource};
use cap_word::null;
use std::alloc::Global;
use tagmem::PageStore;

const LOG: &[u8] = b"capcheck 1\nroot c1 ffff1ffffc0180040000000000000000\nend 0\n";

const YES: Verdict = Verdict::Yes { steps: 0, roots: 1 };

fn judges(alloc: Global) -> bool {
    let no = Verdict::No {
        line: 1,
        refusal: Refusal::Truncated,
    };
    judge_bytes(alloc, LOG) == Ok(YES)
        && judge_bytes(alloc, b"") == Ok(no)
        && judge(alloc, &mut SliceSource::new(LOG, &[7])) == Ok(YES)
        && judge(
            alloc,
            &mut FailingSource::new(SliceSource::new(LOG, &[]), 0),
        ) == Err(JudgeFault::Pull)
}

#[tactic(auto, using(crate::proofs::StoreLemmas::no_granules))]
fn judges_over_a_store(alloc: Global) -> bool {
    judge_in(&mut SliceSource::new(LOG, &[]), PageStore::new(alloc)) == Ok(YES)
}

fn judges_to_a_sink(alloc: Global) -> bool {
    let mut room = [0u8; 64];
    let mut sink = SliceSink::new(&mut room);
    let to = judge_to(alloc, &mut SliceSource::new(LOG, &[]), &mut sink);
    let with_origins = judge_origins(alloc, &mut SliceSource::new(LOG, &[]), &mut sink);
    let full = judge_to(
        alloc,
        &mut SliceSource::new(LOG, &[]),
        &mut SliceSink::new(&mut []),
    );
    to == Ok(YES)
        && with_origins == Ok(YES)
        && full == Err(JudgeToFault::Push)
        && room.starts_with(b"yes 0 1\nyes 0 1\norigin c1 c1\n")
}

fn writes_texts() -> bool {
    let (mut text, mut longer, mut longest) = ([0u8; 64], [0u8; 128], [0u8; 512]);
    let verdict = verdict_text(&YES, &mut text) == 8 && text.starts_with(b"yes 0 1\n");
    let passed = vectors(&mut SliceSource::new(b"", &[])) == Ok(VectorVerdict::Pass { lines: 0 });
    let vector = vector_text(&VectorVerdict::Pass { lines: 0 }, &mut text) == 7;
    let rounded = round_text(&round(0, 1), &mut longer) > 0 && longer.starts_with(b"base 0");
    let explained = explain_text(null(), false, &mut longest) > 0;
    verdict && passed && vector && rounded && explained
}

// The first word of an order.
fn command(order: Order<'_>) -> &'static str {
    match order {
        Order::Explain { .. } => "explain",
        Order::Round { .. } => "round",
        Order::Judge { .. } => "judge",
        Order::Vectors { .. } => "vectors",
    }
}

// Whether words are an order that begins with the first of them.
fn reads(words: &[&str]) -> bool {
    match (read_words(words), words.first()) {
        (Some(order), Some(first)) => command(order) == *first,
        _ => false,
    }
}

// Whether words have none of the forms, and `run` says so.
fn refuses(alloc: Global, words: &[&str]) -> bool {
    let (mut out, mut told) = (Vec::new(alloc), Vec::new(alloc));
    let order = read_words(words);
    let status = run(alloc, order, Some(LOG), &mut out, &mut told);
    order.is_none()
        && status == 2
        && out.is_empty()
        && told.as_slice() == b"capcheck: bad words\n".as_slice()
}

fn takes_words(alloc: Global) -> bool {
    reads(&["explain", "--memory", "--tag", "12"])
        && reads(&["round", "1", "2"])
        && reads(&["judge"])
        && reads(&["judge", "--origins", "log"])
        && reads(&["vectors", "file"])
        && refuses(alloc, &["judge", "--why"])
        && refuses(alloc, &["judge", "--origins", "--why"])
        && refuses(alloc, &["judge", "--why", "log"])
}

#[test]
fn the_root_hands_on_each_call(rt: HostRuntime) {
    let alloc = rt.alloc();
    let holds = judges(alloc)
        && judges_over_a_store(alloc)
        && judges_to_a_sink(alloc)
        && writes_texts()
        && takes_words(alloc);
    assert_eq!(rt; holds, true);
}
