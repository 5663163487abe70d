//! Worked rows.

ghost use Rattle.std.specs.Prelude.{ℕ, ◌∷◌, []};
ghost use Rattle.snb_graph_model.specs.Worked.{network};
ghost use Rattle.snb_read_model.specs.Cells.{number_cell};
ghost use Rattle.snb_read_model.specs.ComplexReads.{Ic13Answer};
ghost use Rattle.snb_read_model.specs.MessageReads.{Ic7Answer};
ghost use Rattle.snb_read_model.specs.Distance.{IsDistance, FriendPath};
ghost use Rattle.snb_read_model.specs.ShortReads.{Is1Answer, Is2Answer, Is3Answer, Is6Answer, Is7Answer};
ghost use Rattle.snb_read_model.specs.Worked.{forum_of_comment, friend_of_ann, like_of_bob, like_of_cy, like_of_di, liked_posts, profile_of_ann, recent_of_bob, reply_to_post, ring};

/// Short reads of the small network: a person, a comment with the post at its root, a friend, the
/// forum of that post, and a reply by a friend; none of a person or a message that isn't there.
pub fn short_reads_of_the_network()
    ensures profile { Is1Answer network 10 (profile_of_ann ∷ []) }
    ensures recent { Is2Answer network 11 (recent_of_bob ∷ []) }
    ensures friend { Is3Answer network 10 (friend_of_ann ∷ []) }
    ensures forum { Is6Answer network 31 (forum_of_comment ∷ []) }
    ensures replies { Is7Answer network 30 (reply_to_post ∷ []) }
    ensures no_person { Is2Answer network 99 [] }
    ensures no_message { Is6Answer network 99 [] }
{}

/// Of a person's likes the latest counts, and of two at one moment that of the lower message; whole
/// minutes are rounded down, also below zero.
pub fn likes_of_two_posts()
    ensures { Ic7Answer liked_posts 10 (like_of_cy ∷ like_of_bob ∷ like_of_di ∷ []) }
{}

/// Distances on a ring of four with one more person beside it.
pub fn distances_on_a_ring()
    ensures own { IsDistance ring 10 10 0 }
    ensures two { IsDistance ring 10 14 2 }
    ensures absent { (n : ℕ) → ¬ FriendPath ring 10 99 n }
    ensures length { Ic13Answer ring 10 14 ((number_cell 2 ∷ []) ∷ []) }
{}
