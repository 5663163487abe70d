//! The nodes that inserts add: out of the fields of a line, and as the lines of their rows.
#![tactic(auto)]

mod nodes;

pub use nodes::{
    put_comment, put_forum, put_person, put_post, read_comment, read_forum, read_person, read_post,
};
