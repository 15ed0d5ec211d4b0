// What code that holds a transaction may see of its tool.
ghost use Rattle.std.specs.Prelude.{◌≡◌, ℕ, ◌+◌, ◌<◌, Bool, false, ◌&&◌, List, MatchOption, ◌==◌};
ghost use Rattle.service.specs.declared.tools.Phase.TheVariants.{Idle, Closed, Failed};
ghost use Rattle.service.specs.declared.tools.Stand.{Stand as Standing};
ghost use Rattle.store.specs.declared.Version.{Version as Stored};
ghost use Rattle.service.specs.Service.{seat, is, fresh};
ghost use Rattle.service.specs.Desks.{seat_of, state};
ghost use Rattle.service.specs.Services.{state_of};
ghost use Rattle.service.specs.Tokens.{is_of};
ghost use Rattle.service.specs.Views.{is_under, items_of, items_where, held_items, bare_items, any_of, tokens_stand};

use crate::desks::Desk;
use crate::item_list::ItemList;
use crate::services::Service;
use crate::tokens::Certified;
use crate::tools::{Phase, Stand, Tool};
use store::{Item, Stamp, Store};

impl Tool {
    fn is_under(&self, phase: Phase, stamp: Stamp) -> bool
        ensures { result ≡ (is self.now.phase phase && self.now.stamp == stamp) }
    {
        self.phase == phase && self.stamp == stamp
    }

    // The items of the entries that stand as wanted. A loop, since `collect` takes an allocator and a board has none.
    fn items<P: Fn(Stand) -> bool>(&self, wanted: P) -> ItemList
        requires { P.IsAlwaysCallable wanted }
        ensures { (p : Standing → Bool) → ((a : Standing) (b : Bool) → P.post wanted a b → b ≡ p a) → items_of result ≡ items_where p (seat_of self.now).entries }
    {
        let mut items = ItemList::new();
        for entry in self.entries.iter() {
            if wanted(entry.stand) {
                items.push(entry.item);
            }
        }
        items
    }
}

fn any_of<V>(tokens: &[Certified<V>], tool: u8, stamp: Stamp) -> bool
    ensures { result ≡ any_of (is_of tool stamp) tokens.now }
{
    tokens.iter().any(|token| token.is_of(tool, stamp))
}

impl Desk {
    fn tool(&self, tool: u8) -> Option<&Tool>
        ensures { (vs : List Stored) → MatchOption result (seat (state vs self.now) tool ≡ fresh 0) (λ own. seat (state vs self.now) tool ≡ seat_of own.now) }
    {
        self.tools.get(usize::from(tool))
    }
}

impl<S: Store> Service<S> {
    // A tool that is not served counts as idle.
    fn is_under(&self, phase: Phase, tool: u8, stamp: Stamp) -> bool
        ensures { is Idle phase ≡ false → result ≡ is_under phase (state_of S.versions self.now) tool stamp }
    {
        self.desk
            .tool(tool)
            .is_some_and(|own| own.is_under(phase, stamp))
    }

    // Whether the tool's transaction is closed under that stamp.
    pub fn is_closed(&self, tool: u8, stamp: Stamp) -> bool
        ensures { result ≡ is_under Closed (state_of S.versions self.now) tool stamp }
    {
        self.is_under(Phase::Closed, tool, stamp)
    }

    // Whether the tool's transaction, closed under that stamp, was rejected.
    pub fn is_failed(&self, tool: u8, stamp: Stamp) -> bool
        ensures { result ≡ is_under Failed (state_of S.versions self.now) tool stamp }
    {
        self.is_under(Phase::Failed, tool, stamp)
    }

    fn items<P: Fn(Stand) -> bool + Drop>(&self, tool: u8, wanted: P) -> ItemList
        requires { P.IsAlwaysCallable wanted }
        ensures { (p : Standing → Bool) → ((a : Standing) (b : Bool) → P.post wanted a b → b ≡ p a) → items_of result ≡ items_where p (seat (state_of S.versions self.now) tool).entries }
    {
        match self.desk.tool(tool) {
            Some(own) => own.items(wanted),
            None => ItemList::new(),
        }
    }

    // The items of the tool's entries that hold a token.
    pub fn held_items(&self, tool: u8) -> ItemList
        ensures { items_of result ≡ held_items (state_of S.versions self.now) tool }
    {
        self.items(tool, |stand| stand.is_held())
    }

    // The items of the tool's entries that hold none.
    pub fn bare_items(&self, tool: u8) -> ItemList
        ensures { items_of result ≡ bare_items (state_of S.versions self.now) tool }
    {
        self.items(tool, |stand| !stand.is_held())
    }

    // Whether a token of that tool and stamp stands in a queue.
    pub fn has_tokens(&self, tool: u8, stamp: Stamp) -> bool
        ensures { result ≡ tokens_stand (state_of S.versions self.now) tool stamp }
    {
        any_of(self.desk.reads.tokens(), tool, stamp)
            || any_of(self.desk.writes.tokens(), tool, stamp)
    }
}
