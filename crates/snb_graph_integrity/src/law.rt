//! Laws of what is found wrong, and of sound graphs.

ghost use Rattle.snb_graph_integrity.specs.Laws.{OneIsWrong, SoundIsNotWrong};
ghost use Rattle.snb_graph_integrity.specs.SoundLaws.{ChainsAreShort, CommentsHaveOneParent, MessagesAreOfOneKind, MessagesHaveOneAuthor, MessagesHaveOneRoot, NumbersFit, PostsHaveNoParent, RepliesAreHeld, RequiredEdgesAreThere, RootsAreOfParents};

/// Nothing is wrong with a sound graph, and of another one thing is wrong first.
pub fn one_outcome()
    ensures sound { SoundIsNotWrong }
    ensures unsound { OneIsWrong }
{}

/// What holds of a graph, and of a sound one:
///
/// - each number of a row is below 2^63;
/// - an id is that of a post or of a comment, never of both;
/// - each edge that a node must have is there, once;
/// - each message has one author, a person who is held;
/// - each message has one root, a post that is held, and a comment has the root of its parent;
/// - a post replies to nothing; what replies is a comment that is held, to one message, which is held;
/// - a chain of parents is no longer than there are comments.
pub fn sound_graphs()
    ensures numbers { NumbersFit }
    ensures kinds { MessagesAreOfOneKind }
    ensures required { RequiredEdgesAreThere }
    ensures author { MessagesHaveOneAuthor }
    ensures root { MessagesHaveOneRoot }
    ensures root_of_parent { RootsAreOfParents }
    ensures posts { PostsHaveNoParent }
    ensures replies { RepliesAreHeld }
    ensures one_parent { CommentsHaveOneParent }
    ensures chains { ChainsAreShort }
{}
