//! The tables in their order.

ghost use Rattle.std.specs.Prelude.{◌≡◌};
ghost use Rattle.snb_schema.specs.TableOrder.{all_tables};

use snb_schema::Table;

const TABLES: [Table; 33] = [
    Table::Place,
    Table::TagClass,
    Table::Tag,
    Table::Organisation,
    Table::Person,
    Table::Forum,
    Table::Post,
    Table::Comment,
    Table::PlaceIsPartOfPlace,
    Table::TagClassIsSubclassOfTagClass,
    Table::TagHasTypeTagClass,
    Table::OrganisationIsLocatedInPlace,
    Table::PersonEmailEmailAddress,
    Table::PersonSpeaksLanguage,
    Table::PersonHasInterestTag,
    Table::PersonIsLocatedInPlace,
    Table::PersonKnowsPerson,
    Table::PersonLikesPost,
    Table::PersonLikesComment,
    Table::PersonStudyAtOrganisation,
    Table::PersonWorkAtOrganisation,
    Table::ForumContainerOfPost,
    Table::ForumHasMemberPerson,
    Table::ForumHasModeratorPerson,
    Table::ForumHasTagTag,
    Table::PostHasCreatorPerson,
    Table::PostHasTagTag,
    Table::PostIsLocatedInPlace,
    Table::CommentHasCreatorPerson,
    Table::CommentHasTagTag,
    Table::CommentIsLocatedInPlace,
    Table::CommentReplyOfPost,
    Table::CommentReplyOfComment,
];

/// All tables, in the order in which they are read, checked and written: nodes, then edges.
pub fn tables_in_order() -> &'static [Table]
    ensures { result.now ≡ all_tables }
{
    &TABLES
}
