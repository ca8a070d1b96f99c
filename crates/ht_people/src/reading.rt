ghost use Rattle.ht_people.specs.Reading.{Reads};

use crate::PeopleRefusal;
use crate::directory::Directory;
use crate::entries::people_text;
use crate::groups::groups_of;
use crate::people::{People, check_cycles, check_limits};
use crate::places::places_of;
use ht_toml::document;
use std::alloc::Global;

impl Directory {
    /// The directory of a people text (people assignment, WS-HumanTask 1.1, 3.5), or the first
    /// refusal that holds of it.
    ///
    /// The text is TOML. It may have an array `person` of tables, each with a `name` and, where the
    /// person operates the server, `operator = true`; and an array `group` of tables, each with a
    /// `name` and `members`: names of persons, and names of groups behind an `@`. A person is
    /// numbered by the place in the text, from 0.
    pub fn read(alloc: Global, text: &[u8]) -> Result<Directory, PeopleRefusal>
        ensures { Reads text.now result }
    {
        let document = document(alloc, text)?;
        let text = people_text(alloc, &document)?;
        let places = places_of(alloc, &text)?;
        let groups = groups_of(alloc, &text, &places)?;
        let people = People {
            persons: text.persons,
            groups,
        };
        check_cycles(alloc, &people)?;
        check_limits(alloc, &people)?;
        Ok(Directory { people, places })
    }
}
