//! UTCTime and GeneralizedTime, decoded and encoded (X.690 11.7, 11.8), and copies of times.

ghost use Rattle.std.specs.Prelude.{◌≡◌, Ok};

use crate::date_time::DateTime;
use crate::generalized_time::GeneralizedTime;
use crate::utc_time::UtcTime;
use std::alloc::Global;
use x509_der::{Content, Error, Room, Spelled, Tag, TryClone};

impl Content for UtcTime {
    ghost use Rattle.x509_base.specs.TimeForms.{utc_time_contents, utc_time_contents_lawful};
    ghost use Rattle.x509_der.specs.declared.tag.Tag.TheVariants as tags;

    ghost contents = { utc_time_contents };

    ghost takes_memory = { ⊥ };

    ghost IDENTIFIER = { tags.UtcTime };

    const IDENTIFIER: Tag = Tag::UtcTime;

    #[inline(always)]
    fn read_content(_alloc: Global, octets: &[u8]) -> Result<UtcTime, Error> {
        UtcTime::from_content(octets)
    }

    fn write_content<R: Room>(&self, room: &mut R) -> Result<(), Error> {
        room.put(&self.content())
    }

    ghost contents_lawful = { utc_time_contents_lawful };
}

impl Spelled for UtcTime {
    fn has_spelling(&self) {
        let _content = self.content();
    }
}

impl Content for GeneralizedTime {
    ghost use Rattle.x509_base.specs.TimeForms.{generalized_time_contents, generalized_time_contents_lawful};
    ghost use Rattle.x509_der.specs.declared.tag.Tag.TheVariants as tags;

    ghost contents = { generalized_time_contents };

    ghost takes_memory = { ⊥ };

    ghost IDENTIFIER = { tags.GeneralizedTime };

    const IDENTIFIER: Tag = Tag::GeneralizedTime;

    fn read_content(_alloc: Global, octets: &[u8]) -> Result<GeneralizedTime, Error> {
        GeneralizedTime::from_content(octets)
    }

    fn write_content<R: Room>(&self, room: &mut R) -> Result<(), Error> {
        room.put(&self.content())
    }

    ghost contents_lawful = { generalized_time_contents_lawful };
}

impl Spelled for GeneralizedTime {
    fn has_spelling(&self) {
        let _content = self.content();
    }
}

impl TryClone for DateTime {
    fn try_clone(&self, _alloc: Global) -> Result<DateTime, Error>
        ensures { result ≡ Ok self.now }
    {
        Ok(*self)
    }
}

impl TryClone for UtcTime {
    fn try_clone(&self, _alloc: Global) -> Result<UtcTime, Error>
        ensures { result ≡ Ok self.now }
    {
        Ok(*self)
    }
}

impl TryClone for GeneralizedTime {
    fn try_clone(&self, _alloc: Global) -> Result<GeneralizedTime, Error>
        ensures { result ≡ Ok self.now }
    {
        Ok(*self)
    }
}
