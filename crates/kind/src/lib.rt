// The choice of a layout: a match on the Type, then on ranges of the Subtype.
#![tactic(auto)]

ghost use Rattle.std.specs.Prelude.{◌≡◌};
ghost use Rattle.page_spec.specs.Layout.{kind12, kind13, kind16, kind};

use form_spec::Fault;
use page_spec::Kind;

pub fn kind_12(sub: u64) -> Result<Kind, Fault>
    ensures { result ≡ kind12 sub }
{
    match sub {
        1 => Ok(Kind::TableDump(4)),
        2 => Ok(Kind::TableDump(16)),
        _ => Err(Fault {
            number: 4,
            place: 6,
        }),
    }
}

pub fn kind_13(sub: u64) -> Result<Kind, Fault>
    ensures { result ≡ kind13 sub }
{
    match sub {
        1 => Ok(Kind::PeerTable),
        2..=3 => Ok(Kind::Rib(32)),
        4..=5 => Ok(Kind::Rib(128)),
        6 => Ok(Kind::RibGeneric),
        _ => Err(Fault {
            number: 4,
            place: 6,
        }),
    }
}

pub fn kind_16(micro: usize, sub: u64) -> Result<Kind, Fault>
    ensures { result ≡ kind16 micro sub }
{
    match sub {
        0 => Ok(Kind::Change(micro, 2)),
        5 => Ok(Kind::Change(micro, 4)),
        1 | 6 => Ok(Kind::Message(micro, 2)),
        4 | 7 => Ok(Kind::Message(micro, 4)),
        _ => Err(Fault {
            number: 4,
            place: 6,
        }),
    }
}

pub fn kind_of(ty: u64, sub: u64) -> Result<Kind, Fault>
    ensures { result ≡ kind ty sub }
{
    match ty {
        11 | 32 | 48 => Ok(Kind::Unread(0)),
        33 | 49 => Ok(Kind::Unread(4)),
        12 => kind_12(sub),
        13 => kind_13(sub),
        16 => kind_16(0, sub),
        17 => kind_16(4, sub),
        _ => Err(Fault {
            number: 3,
            place: 4,
        }),
    }
}
