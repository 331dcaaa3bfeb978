//! Scripts: parse or load one, play it, and print or draw its transcript.
//!
//! A script declares streams, feeds and processes. [`parse`] makes a [`Plan`] of its bytes, [`play`] plays it
//! with threads, [`print`] writes the transcript and [`chart`] draws it. [`unmet`] tells which of the
//! replies that a script expects were not met. A program with kinds of modules of its own gives their words
//! with [`ReadKind`], [`PlayModule`] and [`PrintKind`].
#![tactic(auto)]

pub use strm_script_chart::chart;
pub use strm_script_expect::{Missed, put_missed, unmet};
pub use strm_script_parse::{
    CallDecl, Cause, Expected, LONGEST_SCRIPT, LoadFault, MOST_READ, Name, Names, Object, Plan,
    PlayFault, PlayModule, ProcessDecl, PushDecl, ReadKind, Replies, RunInput, ScriptFault,
    into_run_input, load, parse, parse_made, parse_parallel, with_modules,
};
pub use strm_script_play::{Outcome, play, play_plan, play_plan_in_order};
pub use strm_script_print::{
    PrintKind, end_word, print, print_parallel, put_answer, put_end, put_event, put_far_end,
    put_feed, put_heading, put_number, put_part, put_said, put_word,
};
pub use strm_script_words::{ReadError, number_at, part_at, u8_at, u16_at, u32_at};
