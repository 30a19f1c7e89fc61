//! How the items of versions are shown.
ghost use Rattle.std.specs.Prelude.{◌≡◌, IsSome, IfOk};
ghost use Rattle.ps_journal.specs.declared.replies.Reply.TheVariants.{Shown};
ghost use Rattle.ps_journal.specs.State.{State};
ghost use Rattle.ps_views.specs.Fields.{held_at};
ghost use Rattle.ps_views.specs.Stands.{Stands, Leaves};
ghost use Rattle.ps_book.specs.Services.{fields_of};
ghost use Rattle.ps_book.specs.Wanting.{ReadsOr};
ghost use Rattle.ps_book.specs.Contents.{contents_at, IsLiveHere};

use crate::service::{MOST_TERMS, Service};
use crate::told::Told;
use ps_journal::{Reply, Shared};
use ps_reach::Items;
use ps_script::Place;
use std::alloc::AllocError;
use std::sync::Arc;

impl Service {
    /// Shows the items of a live version.
    pub(crate) fn read(&mut self, place: &Place) -> Told
        ensures { (t : State) → Stands (fields_of self.old) t → Leaves (λ new. ReadsOr t place.now result.reply new) (fields_of self.new) }
    {
        match self.live_at(place) {
            Err(reply) => Told::plain(reply),
            Ok(_) => self.show(place),
        }
    }

    /// The same of a version that is live.
    fn show(&mut self, place: &Place) -> Told
        requires { IsLiveHere (fields_of self.old) place.now }
        ensures { (t : State) → Stands (fields_of self.old) t → Leaves (λ new. ReadsOr t place.now result.reply new) (fields_of self.new) }
    {
        let total = self.terms + u64::from(self.len_at(place));
        if total > MOST_TERMS {
            return Told::plain(Reply::NoRoom(total));
        }
        match self.items_told(place) {
            Err(_) => Told::plain(Reply::Memory),
            Ok(told) => {
                self.terms = total;
                told
            }
        }
    }

    /// The items of a version, which exists, as they are shown.
    fn items_told(&self, place: &Place) -> Result<Told, AllocError>
        requires { IsSome (held_at self.now.versions place.now) }
        ensures { IfOk result (λ told. told.reply ≡ Shown (contents_at (fields_of self.now) place.now)) }
    {
        let items = self.items_at(place)?;
        Told::shared(Reply::Shown(Shared::of(items)))
    }

    /// The items of a version, which exists, to be shared.
    fn items_at(&self, place: &Place) -> Result<Arc<Items>, AllocError>
        requires { IsSome (held_at self.now.versions place.now) }
        ensures { IfOk result (λ a. a.value ≡ contents_at (fields_of self.now) place.now) }
    {
        match self.versions.root(place) {
            None => Ok(Arc::new(self.alloc(), Items::from_vec(Vec::new(self.alloc())))?),
            Some(root) => self.items_of(root),
        }
    }
}
