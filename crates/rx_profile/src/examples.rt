//! A worked example: an abort session request and its bytes, worked out by hand.
ghost use Rattle.std.specs.Prelude.{◌≡◌};
ghost use Rattle.std.specs.declared.net.ipv4_addr.Ipv4Addr.{Ipv4Addr};
ghost use Rattle.dia_codec.specs.Written.{written_spelling};
ghost use Rattle.rx_profile.specs.Aborts.{asr};
ghost use Rattle.rx_profile.specs.Samples.{abort_bytes, call_abort, own_names};

/// The request of the site `s0` under the identifiers 7 and 8.
pub fn abort_is_written()
    ensures { (address : Ipv4Addr) → written_spelling (asr (own_names address) 7 8 call_abort)
        ≡ abort_bytes }
{}
