//! A person of the social network.

ghost use Rattle.std.specs.Prelude.{◌≡◌};
ghost use Rattle.snb_schema.specs.Nodes.{NewPerson, adding};

use crate::op::Op;
use snb_base::{Numbers, Pairs, Text, Texts};

/// A row of the table person.
#[derive(Clone, PartialEq, Eq)]
pub struct Person {
    /// Its key.
    pub id: u64,
    pub first_name: Text,
    pub last_name: Text,
    pub gender: Text,
    /// In milliseconds since 1970-01-01 UTC.
    pub birthday: u64,
    /// In milliseconds since 1970-01-01 UTC.
    pub creation_date: u64,
    pub location_ip: Text,
    pub browser_used: Text,
}

impl Person {
    /// The insert of a person, with what its line has beside the row of the table.
    pub fn into_op(
        self,
        city_id: u64,
        languages: Texts,
        emails: Texts,
        tag_ids: Numbers,
        study_at: Pairs,
        work_at: Pairs,
    ) -> Op
        ensures { result ≡ adding (NewPerson self city_id languages emails tag_ids
            study_at work_at) }
    {
        let Person {
            id,
            first_name,
            last_name,
            gender,
            birthday,
            creation_date,
            location_ip,
            browser_used,
        } = self;
        Op::AddPerson {
            person_id: id,
            first_name,
            last_name,
            gender,
            birthday,
            creation_date,
            location_ip,
            browser_used,
            city_id,
            languages,
            emails,
            tag_ids,
            study_at,
            work_at,
        }
    }
}

impl Drop for Person {
    fn drop(self) {
        let Person {
            id: _,
            first_name: _,
            last_name: _,
            gender: _,
            birthday: _,
            creation_date: _,
            location_ip: _,
            browser_used: _,
        } = self;
    }
}
