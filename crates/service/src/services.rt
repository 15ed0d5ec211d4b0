// A service over any store.
ghost use Rattle.service.specs.Desks.{Lawful};

use crate::desks::Desk;

#[derive(Drop)]
pub struct Service<S> {
    pub(crate) store: S,
    pub(crate) desk: Desk,
    ghost lawful: { Lawful desk },
}
