//! The commands that ask a table of handlers.

ghost use Rattle.std.specs.Prelude.{◌≡◌, Some};
ghost use Rattle.snb_base.specs.Moments.{Moments};
ghost use Rattle.snb_base.specs.Reads.{IsShelfRead};
ghost use Rattle.snb_handlers.specs.Table.{HasAll, kinds};
ghost use Rattle.snb_input_files.specs.Loading.{is_read_fault};
ghost use Rattle.snb_input_files.specs.Names.{Allows};
ghost use Rattle.snb_tool_words.specs.declared.command.Command.TheVariants.{Validate, Walk};
ghost use Rattle.snb_tool_words.specs.declared.options.Via.TheVariants as via;
ghost use Rattle.snb_tool.specs.Connectors.{connector_of};
ghost use Rattle.snb_tool_outcome.specs.Endings.{IsFinished};
ghost use Rattle.snb_tool_outcome.specs.Names.{IsNameOf};
ghost use Rattle.snb_walk.specs.declared.target.Pick.{Pick};

use snb_base::Shelf;
use snb_handlers::Handlers;
use snb_input_files::Load;
use snb_schema::{Query, Refusal};
use snb_tool_dataset::{validate, walk};
use snb_tool_outcome::Finished;
use snb_walk::{Chance, Policy};
use std::alloc::Global;

/// Does what `validate` of `snb_tool_dataset` does, and asks the handlers for the replies to reads. Where a kind of
/// read has none, the first such kind is what is wrong, and nothing is read. The shelf may be asked for the tables
/// and for the cases (`allowed`).
pub fn validate_via<S: Shelf>(
    alloc: Global,
    handlers: &Handlers,
    shelf: &mut S,
    folder: &str,
    cases: &str,
) -> Result<Finished, Load>
    requires allowed { Allows (S.may shelf.old) (IsNameOf (Validate folder.now cases.now via.Table)) }
    ensures answer { (pick : Pick) (moments : Moments)
        → IsFinished (Validate folder.now cases.now via.Table) (S.contents shelf.old)
        (Some (record { kinds = kinds handlers.now; pick = pick })) moments result }
    ensures unread { ¬ HasAll (kinds handlers.now) → shelf.new ≡ shelf.old }
    ensures read { IsShelfRead (is_read_fault result) S.Shelf shelf.old shelf.new }
{
    match handlers.missing() {
        Some(kind) => Err(Load::Refused {
            refusal: Refusal::Unregistered { kind },
        }),
        None => validate(alloc, handlers, shelf, folder, cases),
    }
}

/// Does what `walk` of `snb_tool_dataset` does, and asks the handlers for the answers to reads. Where a kind of read
/// has none, the first such kind is what is wrong, and nothing is read. The shelf may be asked for the tables
/// (`allowed`).
pub fn walk_via<S: Shelf>(
    alloc: Global,
    handlers: &Handlers,
    policy: &Policy,
    shelf: &mut S,
    folder: &str,
    query: &Query,
    chance: Chance,
    words: &[u64],
) -> Result<Finished, Load>
    requires allowed { Allows (S.may shelf.old) (IsNameOf (Walk folder.now query.now chance words.now)) }
    ensures answer { (moments : Moments) → IsFinished (Walk folder.now query.now chance words.now)
        (S.contents shelf.old) (Some (connector_of handlers.now policy.now)) moments result }
    ensures unread { ¬ HasAll (kinds handlers.now) → shelf.new ≡ shelf.old }
    ensures read { IsShelfRead (is_read_fault result) S.Shelf shelf.old shelf.new }
{
    match handlers.missing() {
        Some(kind) => Err(Load::Refused {
            refusal: Refusal::Unregistered { kind },
        }),
        None => walk(alloc, handlers, policy, shelf, folder, query, chance, words),
    }
}
