// A record of a message, heard into the bytes of a slot: its owner and its rdata, names expanded, are written where a table's slot has them, so that they are
// compared with an entry as bytes. A name is followed once, but for one of more than two runs of labels, and for those of an NSEC, whose form is told first.
ghost use Rattle.std.specs.Prelude.{◌≡◌, true, ◌+◌, ◌≤◌, length, take, drop};
ghost use Rattle.std.proofs.lemmas.List.Edits.{sets};
ghost use Rattle.wire.specs.rdata.Rdata.{form_at};
ghost use Rattle.cache.specs.records.Heard.{heard_at};
ghost use Rattle.capi_cache.specs.hearing.Hearing.{heard_with, named_over, rdata_over, heard_in};

use cache::records::Heard;
use wire::buffer::put;
use wire::message::{RecordAt, record_behind};
use wire::rdata::{Form, form_at, part, rdata_fits};
use wire::runs::name_into;

// Lays `len` bytes of a packet over a slot; most often there are none.
fn lay(slot: &mut [u8], at: usize, p: &[u8], from: usize, len: usize)
    ensures { slot.new ≡ sets slot.old at (take len (drop from p.now)) }
{
    if len == 0 {
        return;
    }
    put(slot, at, part(p, from, len));
}

// A record whose rdata holds a name. The name is followed once: it is written where it belongs, and where it ends tells whether the rdata is as its type asks.
fn hear_named(slot: &mut [u8], p: &[u8], f: RecordAt, form: Form) -> Option<Heard>
    requires slot_len { (length slot.old ≡ 1024) × (f.rdata + f.rdlength ≤ length p.now) }
    requires form_value { (form ≡ form_at p.now f) × (form.named ≡ true) }
    ensures { (result ≡ heard_with p.now f) × (slot.new ≡ named_over p.now f form slot.old) }
{
    let before = form.before;
    let behind = form.behind;
    if f.rdlength < before + behind {
        return None;
    }
    let from = f.rdata + before;
    let to = f.rdata + (f.rdlength - behind);
    let place = 256 + before;
    lay(slot, 256, p, f.rdata, before);
    let span = name_into(p, from, &mut slot[place..])?;
    lay(slot, place + span.len, p, to, behind);
    if span.end != to {
        return None;
    }
    Some(Heard {
        whole: true,
        at: f,
        len: before + span.len + behind,
        named: true,
    })
}

// A record whose owner was heard.
fn hear_rdata(slot: &mut [u8], p: &[u8], f: RecordAt) -> Option<Heard>
    requires { (length slot.old ≡ 1024) × (f.rdata + f.rdlength ≤ length p.now) }
    ensures { (result ≡ heard_with p.now f) × (slot.new ≡ rdata_over p.now f slot.old) }
{
    let form = form_at(p, f);
    if form.named {
        return hear_named(slot, p, f, form);
    }
    put(slot, 256, part(p, f.rdata, f.rdlength));
    if !rdata_fits(p, f) {
        return None;
    }
    Some(Heard {
        whole: true,
        at: f,
        len: f.rdlength,
        named: false,
    })
}

// The record at an offset. Its owner and its rdata are laid over `slot`.
pub(crate) fn hear(slot: &mut [u8], p: &[u8], at: usize) -> Option<Heard>
    requires { length slot.old ≡ 1024 }
    ensures { (result ≡ heard_at p.now at) × (slot.new ≡ heard_in p.now at slot.old) }
{
    let span = name_into(p, at, slot)?;
    let f = record_behind(p, at, span)?;
    hear_rdata(slot, p, f)
}
