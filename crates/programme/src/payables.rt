// An event in the ranges for which its amounts are computed.

ghost use Rattle.std.specs.Prelude.{◌≡◌, ◌≤◌, true};
ghost use Rattle.programme.specs.Bounds.{lawful_terms};

use crate::dispatches::Dispatch;
use crate::terms::Terms;

#[derive(Clone, Copy)]
pub(crate) struct Payable {
    pub(crate) terms: Terms,
    pub(crate) dispatch: Dispatch,
    ghost lawful: { lawful_terms terms ≡ true },
    ghost price_most: { dispatch.price ≤ 1000 },
    ghost baseline_most: { dispatch.baseline ≤ 100000000000 },
}
