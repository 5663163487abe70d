//! Laws of replies. The functions do nothing; their contracts are the laws.

ghost use Rattle.snb_read_laws.specs.Laws.{AnswersHaveColumns, AnswersHaveYears, OneAnswer, OneReply, SomeReply};

use snb_base::Text;
use snb_graph_integrity::sound_graphs;
use snb_read_model::AnswerRow;
use snb_read_order::{first_is_one, first_is_some};

/// On a sound graph each query has a reply. That it has no second is `one_reply`.
pub fn some_reply()
    ensures { SomeReply }
{
    first_is_some::<AnswerRow<Text>>();
    first_is_some::<Text>();
    first_is_some::<(Text, u32, Text)>();
    sound_graphs();
}

/// On a sound graph each query has one answer at most, and one reply.
pub fn one_reply()
    ensures answer { OneAnswer }
    ensures reply { OneReply }
{
    first_is_one::<AnswerRow<Text>>();
    first_is_one::<Text>();
    first_is_one::<(Text, u32, Text)>();
    sound_graphs();
}

/// Each row of an answer has the columns of its query, and the years in it are years that a table can have.
pub fn answers_have_columns()
    ensures columns { AnswersHaveColumns }
    ensures years { AnswersHaveYears }
{}
