//! A law of words. The function only cites other laws; its contract is the law.

ghost use Rattle.snb_tool_words.specs.Laws.{WordsAreOne};

use snb_input_fields::one_value;
use snb_ratio::{one_chance, one_ratio};
use snb_schema::frequencies_are_one;

/// Words are the line of one command at most.
pub fn one_command()
    ensures { WordsAreOne }
{
    one_value();
    one_chance();
    one_ratio();
    frequencies_are_one();
}
