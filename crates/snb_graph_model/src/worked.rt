//! Worked rows.

ghost use Rattle.std.specs.Prelude.{◌≡◌, List, [], ◌∷◌, codes};
ghost use Rattle.snb_schema.specs.declared.row.Row.TheVariants as row;
ghost use Rattle.snb_schema.specs.declared.table.Table.TheVariants as table;
ghost use Rattle.snb_graph_model.specs.FinalText.{section};
ghost use Rattle.snb_graph_model.specs.Graphs.{IsGraph, count, rows};
ghost use Rattle.snb_graph_model.specs.Soundness.{IsCycle, HasNeededEdges, IsLacking, Sound};
ghost use Rattle.snb_graph_model.specs.Worked.{ann, bob, network, without_place, circle};

/// The rows of the tables of the network, in the order of their keys.
pub fn network_rows()
    ensures persons { rows network table.Person ≡ row.Person ann ∷ row.Person bob ∷ [] }
    ensures places { rows network table.PersonIsLocatedInPlace
        ≡ row.Link table.PersonIsLocatedInPlace 10 1 ∷ row.Link table.PersonIsLocatedInPlace 11 1 ∷ [] }
    ensures none { rows network table.CommentReplyOfComment ≡ [] }
    ensures words { count network table.PersonSpeaksLanguage ≡ 1 }
    ensures text { section network table.PersonKnowsPerson ≡ codes "person_knows_person|1\n10|11|3000\n" }
    ensures empty { section network table.CommentHasTagTag ≡ codes "comment_hasTag_tag|0\n" }
{}

/// The network lacks nothing; without the place of the person 10 it lacks this.
pub fn a_place_is_lacking()
    ensures whole { HasNeededEdges network }
    ensures without { IsLacking without_place table.Person 10 table.PersonIsLocatedInPlace }
{}

/// Of comments that reply to each other, and those that hang below, the least is named.
pub fn below_a_circle()
    ensures { IsCycle circle 30 }
{}
