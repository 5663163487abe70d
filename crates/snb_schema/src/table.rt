//! The names of tables and of nodes.

/// The 33 tables of a dataset, in the order in which they are read, checked and written.
#[derive(Clone, Copy, PartialEq, Eq, PartialOrd, Ord)]
pub enum Table {
    Place,
    TagClass,
    Tag,
    Organisation,
    Person,
    Forum,
    Post,
    Comment,
    PlaceIsPartOfPlace,
    TagClassIsSubclassOfTagClass,
    TagHasTypeTagClass,
    OrganisationIsLocatedInPlace,
    PersonEmailEmailAddress,
    PersonSpeaksLanguage,
    PersonHasInterestTag,
    PersonIsLocatedInPlace,
    PersonKnowsPerson,
    PersonLikesPost,
    PersonLikesComment,
    PersonStudyAtOrganisation,
    PersonWorkAtOrganisation,
    ForumContainerOfPost,
    ForumHasMemberPerson,
    ForumHasModeratorPerson,
    ForumHasTagTag,
    PostHasCreatorPerson,
    PostHasTagTag,
    PostIsLocatedInPlace,
    CommentHasCreatorPerson,
    CommentHasTagTag,
    CommentIsLocatedInPlace,
    CommentReplyOfPost,
    CommentReplyOfComment,
}

/// The kinds of nodes, each with a table of its own.
#[derive(Clone, Copy, PartialEq, Eq)]
pub enum Kind {
    Place,
    TagClass,
    Tag,
    Organisation,
    Person,
    Forum,
    Post,
    Comment,
}
