// The two-byte NAL unit header (H.266 7.3.1.2).
#![tactic(auto)]

ghost use Rattle.std.specs.Prelude.{◌≡◌};
ghost use Rattle.h266.specs.Header.{header_of};

use refusal::Refusal;

#[repr(C)]
#[derive(Clone, Copy, Debug, Default, PartialEq, Eq)]
pub struct VvcNalHeader {
    pub forbidden_zero_bit: u8,
    pub nuh_reserved_zero_bit: u8,
    pub nuh_layer_id: u8,
    pub nal_unit_type: u8,
    pub nuh_temporal_id_plus1: u8,
}

// Forbidden and reserved bits are handed back, not tested.
#[tactic(auto, unfolding(crate::specs::Header::header_of))]
pub fn parse_nal_header(nal: &[u8]) -> Result<VvcNalHeader, Refusal>
    ensures { result ≡ header_of nal.now }
{
    if nal.len() < 2 {
        return Err(Refusal::NalTooShort);
    }
    let b0 = nal[0];
    let b1 = nal[1];
    Ok(VvcNalHeader {
        forbidden_zero_bit: b0 / 128 % 2,
        nuh_reserved_zero_bit: b0 / 64 % 2,
        nuh_layer_id: b0 % 64,
        nal_unit_type: b1 / 8 % 32,
        nuh_temporal_id_plus1: b1 % 8,
    })
}
