//! The calls of a record, each read from the bytes that begin with its command.
ghost use Rattle.std.specs.Prelude.{◌≡◌, ◌≤◌, ◌↔◌, length, drop, slice_index, IsSome, IfSome};
ghost use Rattle.record.specs.Parts.{Fronts};
ghost use Rattle.record.specs.Spelling.{first_half, second_half};

use sheet::call::Call;
use terms::entry::Entry;
use terms::hull::Hull;

pub(crate) fn hull(rest: &[u8]) -> Option<Call>
    requires { slice_index rest.now 0 ≡ 0x01 }
    ensures { Fronts 10 result rest.now }
{
    let [_, l1, l0, b1, b0, d1, d0, t1, t0, water] = *rest.first_chunk::<10>()?;
    Some(Call::Hull(Hull {
        length: u16::from_be_bytes([l1, l0]),
        breadth: u16::from_be_bytes([b1, b0]),
        depth: u16::from_be_bytes([d1, d0]),
        draught: u16::from_be_bytes([t1, t0]),
        water,
    }))
}

// The entered values of a line, after a command byte.
pub(crate) fn entry(rest: &[u8]) -> Option<Entry>
    ensures enough { IsSome result ↔ (20 ≤ length rest.now) }
    ensures first { IfSome result (λ e. drop 1 rest.now ≡ first_half e (drop 11 rest.now)) }
    ensures second { IfSome result (λ e. drop 11 rest.now ≡ second_half e (drop 20 rest.now)) }
{
    let (front, rest) = rest.split_first_chunk::<11>()?;
    let [_, m1, m0, kind, place, n1, n0, f1, f0, s1, s0] = *front;
    let [l1, l0, pressure, z1, z0, t1, t0, a1, a0] = *rest.first_chunk::<9>()?;
    Some(Entry {
        mark: u16::from_be_bytes([m1, m0]),
        kind,
        place,
        near: u16::from_be_bytes([n1, n0]),
        far: u16::from_be_bytes([f1, f0]),
        spacing: u16::from_be_bytes([s1, s0]),
        span: u16::from_be_bytes([l1, l0]),
        pressure,
        height: u16::from_be_bytes([z1, z0]),
        strength: u16::from_be_bytes([t1, t0]),
        area: u16::from_be_bytes([a1, a0]),
    })
}

pub(crate) fn strike(rest: &[u8]) -> Option<Call>
    requires { slice_index rest.now 0 ≡ 0x04 }
    ensures { Fronts 3 result rest.now }
{
    let [_, m1, m0] = *rest.first_chunk::<3>()?;
    Some(Call::Strike(u16::from_be_bytes([m1, m0])))
}

pub(crate) fn lay(rest: &[u8]) -> Option<Call>
    requires { slice_index rest.now 0 ≡ 0x05 }
    ensures { Fronts 5 result rest.now }
{
    let [_, m1, m0, s1, s0] = *rest.first_chunk::<5>()?;
    Some(Call::Lay(u16::from_be_bytes([m1, m0]), u16::from_be_bytes([s1, s0])))
}
