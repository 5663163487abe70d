//! What each of the fourteen reads of LDBC's Social Network Benchmark, Interactive workload v1,
//! answers over the rows of a graph: definitions, the types of answers, and worked rows.
#![tactic(auto)]

mod answer;
mod cell;
mod cow_text;
mod like;
mod sent;
mod tail;
mod worked;

pub use answer::{
    Answer, AnswerRow, Reply, copy_answer, copy_reply, cow_answer, cow_reply, lend_answer,
    lend_reply, reply_with_tail,
};
pub use cell::{Cell, CellTexts, Stays};
pub use cow_text::CowText;
pub use like::Like;
pub use sent::Sent;
pub use snb_schema::{CellKind, ReadLayout, TargetColumn, layout_of_query, read_layout_of};
pub use tail::{Tail, id_of, tail_of};
pub use worked::{distances_on_a_ring, likes_of_two_posts, short_reads_of_the_network};
