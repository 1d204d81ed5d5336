//! The request by which a client sets a tag.
ghost use Rattle.std.specs.Prelude.{◌≡◌, ◌≤◌, ◌<◌, ◌+◌, ℕ, List, length, IfSome, MatchOption};
ghost use Rattle.modbus_frame.specs.declared.message.Request.TheVariants.{WriteMany};
ghost use Rattle.modbus_frame.specs.Message.{IsRequest};
ghost use Rattle.gateway.specs.served.Points.{own_points};
ghost use Rattle.gateway.specs.event_core.Restoring.{AreWordsFor, NothingSets, SetsAlone};

use crate::event_core::setting::setting_of;
use crate::served::{OwnPoint, words_to_read};
use modbus_frame::{Request, Words};
use site_model::{Site, SiteTag};

/// The request that sets a tag alone: the words that read as the number, at the address of the tag's point. None where no
/// request does.
pub(crate) fn request_to_set(
    site: &Site,
    points: &[OwnPoint],
    tag: usize,
    number: i64,
) -> Option<Request>
    requires { points.now ≡ own_points site.now }
    ensures request { IfSome result IsRequest }
    ensures sets { IfSome result (SetsAlone site.now tag number) }
    ensures none { result ≡ None → NothingSets site.now tag number }
{
    let mut addr = usize::from(site.base());
    for point in points {
        if let Some(words) = words_to_set(site.tags(), *point, tag, number) {
            return request_at(addr, words);
        }
        addr = match addr.checked_add(point.registers()) {
            Some(next) => next,
            None => return None,
        };
    }
    None
}

/// The words of a point that set a tag to a number.
fn words_to_set(tags: &[SiteTag], point: OwnPoint, tag: usize, number: i64) -> Option<Words>
    ensures { MatchOption result ((ws : List ℕ) → AreWordsFor tags.now tag number point ws → ⊥) (AreWordsFor tags.now tag number point) }
{
    match setting_of(tags, point) {
        Some(i) if i == tag => words_to_read(point, &tags[i], number),
        _ => None,
    }
}

fn request_at(addr: usize, words: Words) -> Option<Request>
    requires some { 1 ≤ length words }
    requires few { length words ≤ 123 }
    ensures request { IfSome result (λ r. r ≡ WriteMany addr words) }
    ensures inside { IfSome result IsRequest }
    ensures none { result ≡ None → 65536 < addr + length words }
{
    if addr > 65536 - words.as_slice().len() {
        return None;
    }
    Some(Request::WriteMany {
        addr: addr as u16,
        words,
    })
}
