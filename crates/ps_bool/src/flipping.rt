ghost use Rattle.std.specs.Prelude.{◌≡◌, [], ◌∷◌, IfOk};
ghost use Rattle.ps_bool.specs.Flips.{has_one};
ghost use Rattle.ps_bool.specs.Merging.{merge};

use ps_mono::Mono;
use std::alloc::AllocError;

// Whether the first monomial is the empty one.
fn begins_with_one(monos: &[Mono]) -> bool
    ensures { result ≡ has_one monos.now }
{
    if monos.is_empty() {
        return false;
    }
    monos[0].degree() == 0
}

// The list in order with the empty monomial taken out of it or put into it, at its front.
pub fn with_one_flipped(monos: Vec<Mono>) -> Result<Vec<Mono>, AllocError>
    ensures { IfOk result (λ f. f.items ≡ merge monos.items ([] ∷ [])) }
{
    let mut monos = monos;
    if begins_with_one(&monos) {
        let _ = monos.remove(0);
        return Ok(monos);
    }
    monos.insert(0, Mono::one())?;
    Ok(monos)
}
