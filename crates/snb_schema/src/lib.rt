//! The plain types of the harness, and the definitions that its layers share: lines, rows, update
//! lines, refusals, the layouts of tables, lanes, lists and frequencies, and the limits.
#![tactic(auto)]

mod column;
mod fault;
mod file;
mod frequencies;
mod key;
mod lanes;
mod law;
mod layout;
mod limits;
mod lists;
mod nodes;
mod op;
mod person;
mod query;
mod references;
mod refusal;
mod row;
mod table;
mod worked_inserts;

pub use column::{Column, Value};
pub use fault::{Fault, LineFault, PlanFault};
pub use file::{FileId, FileKind, file_name, name_text, table_name};
pub use frequencies::Frequencies;
pub use key::{Held, Key};
pub use lanes::Lanes;
pub use law::{frequencies_are_one, limits_are_these};
pub use layout::{
    KeyColumns, Layout, Shape, columns_of, is_undirected, key_columns_of, layout_of, shape_of,
};
pub use limits::{
    MAX_AT, MAX_BYTES, MAX_FREQUENCY, MAX_ID, MAX_LANES, MAX_LENGTH, MAX_PARTS, MAX_READS,
    MAX_ROWS, MAX_TIME, MAX_TRIAL, MAX_WORDS, MAX_WORKERS, MAX_YEAR,
};
pub use lists::Lists;
pub use nodes::{Comment, Forum, Named, Organisation, Place, Post};
pub use op::{InsertKind, Line, Op, Parent};
pub use person::Person;
pub use query::{
    COMPLEX_COUNT, COMPLEX_QUERIES, COMPLEX_READS, CellKind, Query, READ_KINDS, ReadKind,
    ReadLayout, TargetColumn, is_complex, layout_of_query, place_of, read_layout_of,
};
pub use references::{Keys, Refs, added_node, keys_of, refs_of};
pub use refusal::{Counted, Missing, Refusal};
pub use row::{LentRow, Placed, Row};
pub use table::{Kind, Table};
pub use worked_inserts::{
    comment_rows, edge_rows, forum_rows, insert_keys, keys_are_the_columns, person_rows, post_rows,
    row_references, slots, waiting,
};
