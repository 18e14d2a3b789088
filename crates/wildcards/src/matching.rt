// The walk that decides what a pattern takes.
ghost use Rattle.std.specs.Prelude.{◌≡◌};
ghost use Rattle.std.specs.List.{list_all};
ghost use Rattle.wildcards.specs.Spells.{after_some, spells};

use crate::elements::Elements;
use crate::item::Item;

fn are_runs<E, I: Item<E>>(items: &[I]) -> bool
    ensures { result ≡ list_all I.is_run items.now }
{
    items.iter().all(|item| item.is_run())
}

/// Whether the items take all the elements. Up to the first run each takes one.
pub fn spells<I: Item<C::Element>, C: Elements>(items: &[I], elements: C) -> bool
    ensures { result ≡ spells I.is_run I.takes items.now (C.elements elements) }
{
    let mut left = items;
    let mut rest = elements;
    while let Some((item, more)) = left.split_first() {
        if item.is_run() {
            return spells_somewhere(more, rest);
        }
        match rest.first() {
            Some(element) if item.takes(element) => {
                left = more;
                rest = rest.behind();
            }
            _ => return false,
        }
    }
    rest.first().is_none()
}

/// Whether the items take the elements from some place on. One walk in constant space: where it is stuck, it returns to
/// the items behind the last run and to the element behind the one at which it tried these last.
fn spells_somewhere<I: Item<C::Element>, C: Elements>(items: &[I], elements: C) -> bool
    ensures { result ≡ after_some (spells I.is_run I.takes items.now) (C.elements elements) }
{
    let mut back_items = items;
    let mut back = elements;
    let mut left = items;
    let mut rest = elements;
    while let Some(element) = rest.first() {
        match left.split_first() {
            Some((item, more)) if item.is_run() => {
                back_items = more;
                back = rest;
                left = more;
            }
            Some((item, more)) if item.takes(element) => {
                left = more;
                rest = rest.behind();
            }
            _ => match back.first() {
                Some(_) => {
                    back = back.behind();
                    rest = back;
                    left = back_items;
                }
                None => return false,
            },
        }
    }
    are_runs(left)
}
