// What the operations on whole transactions are made of.
ghost use Rattle.std.specs.Prelude.{◌≡◌, map};
ghost use Rattle.service.specs.declared.calls.Call.TheVariants.{Certify, Settle, Abort};
ghost use Rattle.service.specs.Service.{step};
ghost use Rattle.service.specs.Services.{state_of};
ghost use Rattle.held.specs.Calls.{Made, MadeUpTo, without};
ghost use Rattle.held.specs.Held.{certifications, settlements, settling};

use service::{Call, Refusal, Service};
use store::{Item, Store};

// Certifies these items, up to the first refusal.
fn certify_each<S: Store>(service: &mut Service<S>, tool: u8, items: &[Item]) -> Result<(), Refusal>
    ensures { MadeUpTo S.versions service.old (map (Certify tool) items.now) result service.new }
{
    for item in items {
        service.certify(tool, *item)?;
    }
    Ok(())
}

// Certifies the entries without a token, up to the first refusal.
pub(crate) fn certify_bare<S: Store>(service: &mut Service<S>, tool: u8) -> Result<(), Refusal>
    ensures { MadeUpTo S.versions service.old (certifications tool (state_of S.versions service.old)) result service.new }
{
    let bare = service.bare_items(tool);
    certify_each(service, tool, bare.as_slice())
}

// Settles these items. Unlike certifying them it does not stop at a refusal, and so it answers nothing.
fn settle_each<S: Store>(service: &mut Service<S>, tool: u8, items: &[Item])
    ensures { Made S.versions service.old (map (Settle tool) items.now) service.new }
{
    for item in items {
        let _ = service.settle(tool, *item);
    }
}

// Settles the entries that hold a token.
fn settle_held<S: Store>(service: &mut Service<S>, tool: u8)
    ensures { Made S.versions service.old (settlements tool (state_of S.versions service.old)) service.new }
{
    let held = service.held_items(tool);
    settle_each(service, tool, held.as_slice());
}

// The call that ends the transaction, and then the settlement of everything.
pub(crate) fn finish<S: Store>(service: &mut Service<S>, call: Call) -> Result<(), Refusal>
    ensures made { Made S.versions service.old (settling call (state_of S.versions service.old)) service.new }
    ensures answer { result ≡ without (step (state_of S.versions service.old) call).0 }
{
    service.call(call)?;
    settle_held(service, call.tool());
    Ok(())
}

// Aborts the transaction and settles everything.
pub(crate) fn undo<S: Store>(service: &mut Service<S>, tool: u8)
    ensures { Made S.versions service.old (settling (Abort tool) (state_of S.versions service.old)) service.new }
{
    let _ = finish(service, Call::Abort { tool });
}
