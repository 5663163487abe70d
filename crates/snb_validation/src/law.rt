//! Laws of the texts of replies. The function does nothing; its contract is the law.

ghost use Rattle.snb_validation.specs.Laws.{ReadsBack, OneOfArray, OneOfText};

/// `serde_json` reads a reply's array from its text, where the numbers are of 64 bits and the years of
/// 32. Replies with one array, and replies of such numbers with one text, are equal, but that a list
/// without stays has the text of a list without texts.
pub fn text_tells_reply()
    ensures back { ReadsBack }
    ensures array { OneOfArray }
    ensures text { OneOfText }
{}
