// The two lists of initial places and ages that open is given.
ghost use Rattle.file_check.specs.Lists.{Pushed};
ghost use Rattle.std.specs.Prelude.{◌≡◌, []};

use arrayvec::ArrayVec;
use docket_records::token::InitialToken;

/// As many as a docket header can say, though open takes no more than 8.
#[derive(Drop)]
pub struct InitialLists {
    /// a place for each token
    pub places: ArrayVec<u8, 15>,
    /// an age for each
    pub ages: ArrayVec<u16, 15>,
}

impl InitialLists {
    /// No token yet.
    pub fn new() -> InitialLists
        ensures places { result.places.items ≡ [] }
        ensures ages { result.ages.items ≡ [] }
    {
        InitialLists {
            places: ArrayVec::new(),
            ages: ArrayVec::new(),
        }
    }

    /// A token more; none past the 15th.
    pub fn add(&mut self, token: InitialToken)
        ensures places { Pushed 15 self.old.places.items token.place self.new.places.items }
        ensures ages { Pushed 15 self.old.ages.items token.age self.new.ages.items }
    {
        let _ = self.places.try_push(token.place);
        let _ = self.ages.try_push(token.age);
    }
}
