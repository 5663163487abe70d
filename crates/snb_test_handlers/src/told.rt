//! What came of handlers, as texts.

use snb_base::Text;
use snb_handlers::Register;
use snb_read_model::Answer;
use snb_schema::ReadKind;
use snb_test_script::{Flaw, List};
use std::alloc::Global;
use std::cell::Cell;
use std::rc::Rc;

/// Why a handler isn't registered.
pub(crate) fn flaw_of(why: Register) -> Flaw {
    match why {
        Register::Duplicate => Flaw::OtherValue,
        Register::Memory => Flaw::Memory,
    }
}

/// How many rows an answer has, and which kind of read has no handler.
pub(crate) fn told_rows(
    alloc: Global,
    answer: &Answer<Text>,
    missing: Option<ReadKind>,
) -> Result<String, Flaw> {
    let rows = answer.as_slice().len();
    let missing = match missing {
        Some(kind) => kind.word(),
        None => "none",
    };
    Ok(format!(in alloc; "rows {rows}, missing {missing}")?)
}

/// What came of cases, and then each kind of read whose handler was asked, and how often.
pub(crate) fn told_counts(
    alloc: Global,
    came: &str,
    counts: &[(ReadKind, Rc<Cell<u64>>)],
) -> Result<String, Flaw> {
    let mut list = List::new(alloc);
    list.add(came)?;
    for (kind, count) in counts {
        let count = count.get();
        if count > 0 {
            let word = kind.word();
            list.add(format!(in alloc; "{word} {count}")?.as_str())?;
        }
    }
    list.told(alloc)
}
