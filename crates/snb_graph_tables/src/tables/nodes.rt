//! The nodes among the rows of a graph.

ghost use Rattle.std.specs.Prelude.{◌≡◌, ◌↔◌, map, IsTrue, IsSome, IfSome, Contains};
ghost use Rattle.std.specs.Option.{option_copied};
ghost use Rattle.snb_schema.specs.declared.table.Kind.TheVariants as kinds;
ghost use Rattle.snb_graph_tables.specs.Parts.{HasGivenBack};
ghost use Rattle.snb_schema.specs.declared.row.Row.{Row};
ghost use Rattle.snb_schema.specs.declared.table.Table.TheVariants as tables;
ghost use Rattle.snb_graph_model.specs.Graphs.{rows, HasKey};
ghost use Rattle.snb_schema.specs.RowKeys.{row_key, node_key};
ghost use Rattle.snb_schema.specs.declared.row.Row.TheVariants as row;

use super::Tables;
use snb_graph_maps::Walk;
use snb_schema::{Comment, Forum, Kind, Named, Organisation, Person, Place, Post};

impl Tables {
    /// The person of this id.
    pub fn person(&self, id: u64) -> Option<&Person>
        ensures found { IfSome (option_copied result) (λ n. (n.id ≡ id) × Contains self.now.rows (row.Person n)) }
        ensures held { IsSome result ↔ HasKey self.now.rows (node_key kinds.Person id) }
    {
        self.persons.find(&id)
    }

    /// The post of this id.
    pub fn post(&self, id: u64) -> Option<&Post>
        ensures found { IfSome (option_copied result) (λ n. (n.id ≡ id) × Contains self.now.rows (row.Post n)) }
        ensures held { IsSome result ↔ HasKey self.now.rows (node_key kinds.Post id) }
    {
        self.posts.find(&id)
    }

    /// The comment of this id.
    pub fn comment(&self, id: u64) -> Option<&Comment>
        ensures found { IfSome (option_copied result) (λ n. (n.id ≡ id) × Contains self.now.rows (row.Comment n)) }
        ensures held { IsSome result ↔ HasKey self.now.rows (node_key kinds.Comment id) }
    {
        self.comments.find(&id)
    }

    /// The forum of this id.
    pub fn forum(&self, id: u64) -> Option<&Forum>
        ensures found { IfSome (option_copied result) (λ n. (n.id ≡ id) × Contains self.now.rows (row.Forum n)) }
        ensures held { IsSome result ↔ HasKey self.now.rows (node_key kinds.Forum id) }
    {
        self.forums.find(&id)
    }

    /// The place of this id.
    pub fn place(&self, id: u64) -> Option<&Place>
        ensures found { IfSome (option_copied result) (λ n. (n.id ≡ id) × Contains self.now.rows (row.Place n)) }
        ensures held { IsSome result ↔ HasKey self.now.rows (node_key kinds.Place id) }
    {
        self.places.find(&id)
    }

    /// The tag of this id.
    pub fn tag(&self, id: u64) -> Option<&Named>
        ensures found { IfSome (option_copied result) (λ n. (n.id ≡ id) × Contains self.now.rows (row.Tag n)) }
        ensures held { IsSome result ↔ HasKey self.now.rows (node_key kinds.Tag id) }
    {
        self.tags.find(&id)
    }

    /// The organisation of this id.
    pub fn organisation(&self, id: u64) -> Option<&Organisation>
        ensures found { IfSome (option_copied result) (λ n. (n.id ≡ id) × Contains self.now.rows (row.Organisation n)) }
        ensures held { IsSome result ↔ HasKey self.now.rows (node_key kinds.Organisation id) }
    {
        self.organisations.find(&id)
    }

    /// The class of tags of this id.
    pub fn tag_class(&self, id: u64) -> Option<&Named>
        ensures found { IfSome (option_copied result) (λ n. (n.id ≡ id) × Contains self.now.rows (row.TagClass n)) }
        ensures held { IsSome result ↔ HasKey self.now.rows (node_key kinds.TagClass id) }
    {
        match self.tag_classes.find(&id) {
            Some(class) => Some(&class.named),
            None => None,
        }
    }

    /// The persons, each with their id, by rising id. Takes no memory.
    pub fn persons(&self) -> Walk<'_, u64, Person>
        ensures { map (λ e. row.Person e.1) result ≡ rows self.now.rows tables.Person }
    {
        let _ = &self.persons;
        self.persons.all()
    }

    // Whether a node of the kind has the id.
    pub(super) fn has_node(&self, kind: Kind, id: u64) -> bool
        ensures { IsTrue result ↔ HasKey self.now.rows (node_key kind id) }
    {
        match kind {
            Kind::Place => self.places.has(&id),
            Kind::TagClass => self.tag_classes.has(&id),
            Kind::Tag => self.tags.has(&id),
            Kind::Organisation => self.organisations.has(&id),
            Kind::Person => self.persons.has(&id),
            Kind::Forum => self.forums.has(&id),
            Kind::Post => self.posts.has(&id),
            Kind::Comment => self.comments.has(&id),
        }
    }

    // Takes out the node of a kind and id.
    pub(super) fn take_node(&mut self, kind: Kind, id: u64)
        requires held { HasKey self.old.rows (node_key kind id) }
        requires free { ¬ HasKey self.old.frozen (node_key kind id) }
        ensures gone { (r : Row) → Contains self.old.rows r → row_key r ≡ node_key kind id
            → HasGivenBack self.old.rows r self.new.rows }
        ensures frozen { self.new.frozen ≡ self.old.frozen }
    {
        match kind {
            Kind::Place => self.places.take_back(&id),
            Kind::TagClass => self.tag_classes.take_back(&id),
            Kind::Tag => self.tags.take_back(&id),
            Kind::Organisation => self.organisations.take_back(&id),
            Kind::Person => self.persons.take_back(&id),
            Kind::Forum => self.forums.take_back(&id),
            Kind::Post => self.posts.take_back(&id),
            Kind::Comment => self.comments.take_back(&id),
        }
    }
}
