//! A turn: the turn is taken and the book moved out of its slot; an event that the call adds is counted, and
//! the new completion time published; the book is moved back, and the turn passed.

ghost use Rattle.std.specs.Prelude.{◌≡◌, ◌+◌, ◌<◌, ◌≤◌, length, [], ◌∷◌, ◌++◌, List, true, false, MatchBool};
ghost use Rattle.snb_schema.specs.declared.limits.TheConstants.{MAX_TIME};
ghost use Rattle.snb_history.specs.declared.event.Event.{Event as HistoryEvent};
ghost use Rattle.snb_history.specs.Rules.{IsLegal};
ghost use Rattle.snb_board.specs.Boards.{time_below};
ghost use Rattle.snb_board.specs.Steps.{IsSized, IsSeated, IsResting, HoldsTurn, HasTurn, Grew, told_view};
ghost use Rattle.snb_board.specs.declared.view.Phase.TheVariants.{Idle, Holding, Counted, Raised};
ghost use Rattle.snb_board.specs.Views.{Home};
ghost use Rattle.snb_board.specs.ViewSteps.{minting, newcomer, gathered};
ghost use Rattle.snb_board.specs.Parts.{kept, posed, reached, seen_of, number_of, told_of, first_view};

use crate::plays::{Begin, Count, Gather, Load, Mint, Pass, Raise, Take};
use crate::view::{Place, Top};
use crossbeam_utils::Backoff;
use snb_book::Book;
use snb_history::Event;
use std::sync::Wait;

/// The word that is 1 while a seat has the turn, else 0.
const TURN: usize = 0;

/// The word that counts the events.
const COUNT: usize = 1;

/// The word that has the completion time plus 1.
const REACH: usize = 2;

/// The completion time plus 1.
pub(crate) fn reach_of(book: &Book) -> u64
    ensures { result ≡ reached book.now.schedule book.now.history }
{
    (book.completion() + 1) as u64
}

/// Waits for the turn, and moves the book out of its slot. Whoever finds the turn taken spins a little
/// and tries again, and after some tries yields the processor in between.
pub(crate) fn take<R: Wait>(rt: &R, top: &Top, place: &mut Place) -> Book
    requires table { IsSized top.now.table_id × (place.old.table_id ≡ top.now.table_id) }
    requires rest { IsResting place.old }
    ensures table { IsSeated place.old place.new }
    ensures turn { HoldsTurn place.old place.new result.history }
    ensures book { result ≡ kept place.old.me.0.schedule place.old.me.0.workers result.history }
    ensures legal { IsLegal result.schedule result.workers result.history }
    ensures told { told_of place.old.me.0.parts ≤ reached result.schedule result.history }
{
    let backoff = Backoff::new();
    for _ in rt.forever() {
        if top.compare_exchange::<Take>(place, TURN, 0, 1) == 0 {
            let Ok(book) = top.exchange(place, 0, Err(None)) else {
                unreachable!()
            };
            return book;
        }
        backoff.snooze();
    }
    unreachable!()
}

/// Takes the turn for the first time, and passes it. No other seat has been made, so the turn is free, and
/// nothing has happened.
pub(crate) fn begin(top: &Top, place: &mut Place)
    requires table { IsSized top.now.table_id × (place.old.table_id ≡ top.now.table_id) }
    requires first { place.old.me ≡ (first_view top.now.key.value, []) }
    requires some { 0 < top.now.key.value.workers }
    ensures table { IsSeated place.old place.new }
    ensures view { place.new.me ≡ place.old.me }
{
    top.compare_exchange::<Begin>(place, TURN, 0, 1);
    top.store::<Pass>(place, TURN, 0);
}

/// The last event of the book.
fn last_event(book: &Book) -> Event
    requires { 0 < length book.now.history }
    ensures { (g : List HistoryEvent) (e : HistoryEvent) → book.now.history ≡ g ++ e ∷ [] → result ≡ e }
{
    let events = book.events();
    events[events.len() - 1]
}

/// Counts the book's new event, which its slot has meanwhile, and publishes its completion time.
fn publish(top: &Top, place: &mut Place, book: &Book)
    requires table { IsSized top.now.table_id × (place.old.table_id ≡ top.now.table_id) }
    requires turn { HasTurn place.old
        × (book.now ≡ kept place.old.me.0.schedule place.old.me.0.workers book.now.history) }
    requires event { Grew (number_of place.old.me.0.parts) (seen_of place.old.me.0.parts) true book.now.history }
    ensures table { IsSeated place.old place.new }
    ensures view { (x : Home) × (place.new.me ≡ (posed Raised book.now.history place.old.me.0, (0, x) ∷ [])) }
{
    let _legal = book.events();
    let _ = top.exchange(place, 0, Err(Some(last_event(book))));
    top.fetch_add::<Count>(place, COUNT, 1);
    top.store::<Raise>(place, REACH, reach_of(book));
}

/// Counts the book's new event and publishes its completion time if there is one, puts the book back, and
/// passes the turn.
pub(crate) fn give(top: &Top, place: &mut Place, book: Book, grew: bool)
    requires table { IsSized top.now.table_id × (place.old.table_id ≡ top.now.table_id) }
    requires turn { HasTurn place.old × (book ≡ kept place.old.me.0.schedule place.old.me.0.workers book.history) }
    requires event { Grew (number_of place.old.me.0.parts) (seen_of place.old.me.0.parts) grew book.history }
    ensures table { IsSeated place.old place.new }
    ensures rest { place.new.me ≡ (posed Idle book.history place.old.me.0, []) }
    ensures legal { IsLegal book.schedule book.workers book.history }
{
    let _legal = book.events();
    if grew {
        publish(top, place, &book);
    }
    let _ = top.exchange(place, 0, Ok(book));
    top.store::<Pass>(place, TURN, 0);
}

/// One seat more.
pub(crate) fn mint(top: &Top, place: &mut Place) -> Place
    requires table { IsSized top.now.table_id × (place.old.table_id ≡ top.now.table_id) }
    requires rest { IsResting place.old }
    requires room { let v = place.old.me.0 in (0 < v.made) × (v.made < v.workers) }
    ensures table { IsSeated place.old place.new × (result.table_id ≡ place.old.table_id) }
    ensures views { (place.new.me ≡ (minting place.old.me.0, [])) × (result.me ≡ (newcomer place.old.me.0, [])) }
{
    top.split_seat::<Mint>(place)
}

/// Takes in what another seat has seen.
pub(crate) fn gather(top: &Top, place: &mut Place, other: Place)
    requires table { IsSized top.now.table_id × (place.old.table_id ≡ top.now.table_id)
        × (other.table_id ≡ top.now.table_id) }
    requires rest { (place.old.me.0.phase ≡ Idle) × (0 < place.old.me.0.workers) × (place.old.me.1 ≡ [])
        × IsResting other }
    ensures table { IsSeated place.old place.new }
    ensures views { place.new.me ≡ (gathered place.old.me.0 other.me.0, []) }
{
    top.join_seat::<Gather>(place, other);
}

/// What was published last.
pub(crate) fn load(top: &Top, place: &mut Place) -> u64
    requires table { IsSized top.now.table_id × (place.old.table_id ≡ top.now.table_id) }
    requires rest { IsResting place.old }
    ensures table { IsSeated place.old place.new }
    ensures rest { place.new.me ≡ (told_view place.old.me.0 result, []) }
    ensures known { (told_of place.old.me.0.parts ≤ result)
        × (reached place.old.me.0.schedule (seen_of place.old.me.0.parts) ≤ result) }
    ensures bounded { result ≤ MAX_TIME + 1 }
{
    top.load::<Load>(place, REACH)
}
