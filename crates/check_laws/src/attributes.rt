//! The faults of literal attributes, in bytes.
ghost use Rattle.std.specs.Prelude.{◌≡◌, [], ◌∷◌, ◌++◌, None, Some, replicate};
ghost use lib.Chars.{codes};
ghost use Rattle.check_findings.specs.declared.region.finding.AttributeFault.TheVariants as faults;
ghost use Rattle.check_laws.specs.AttributeSamples.{compression, digest, fault_in, four};
ghost use Rattle.check_laws.specs.AttributeSamples.{stage, unused};

/// Attributes without a fault: a SHA-256 digest, also before erased or cleared bytes, before a last
/// unused attribute, or with other first bytes of its number; a SHA-1 digest; a compression
/// attribute of 16 bytes; a stage with its entry point in its memory.
pub fn sound_attributes_have_no_fault()
    ensures none { fault_in 0x50 [] ≡ None }
    ensures digest { fault_in 0x50 (digest (four 2) 32 ++ replicate 8 0xff) ≡ None }
    ensures cleared { fault_in 0x50 (digest (four 2) 32 ++ replicate 8 0) ≡ None }
    ensures last { fault_in 0x50 (digest (four 2) 32 ++ unused) ≡ None }
    ensures other_algorithm { fault_in 0x50 (digest (four 1) 20) ≡ None }
    ensures last_byte { fault_in 0x50 (digest (1 ∷ 0 ∷ 0 ∷ 2 ∷ []) 32) ≡ None }
    ensures compression { fault_in 0x50 (compression 8 ++ digest (four 2) 32) ≡ None }
    ensures stage { fault_in 0x11 (stage 15 16 ++ digest (four 2) 32) ≡ None }
    ensures second_stage { fault_in 0x11 (stage 15 16 ++ stage 16 16) ≡ None }
    ensures other_type { fault_in 0x50 (stage 16 16) ≡ None }
{}

/// Attributes with each fault.
pub fn attributes_with_a_fault_are_known()
    ensures behind_end { fault_in 0x50 (unused ++ digest (four 2) 32) ≡ Some faults.BehindEnd }
    ensures behind_last { fault_in 0x50 (digest (four 2) 32 ++ unused ++ unused ++ compression 8)
        ≡ Some faults.BehindEnd }
    ensures compression { fault_in 0x50 (compression 12) ≡ Some faults.CompressionLength }
    ensures digest_length { fault_in 0x50 (digest (four 2) 36) ≡ Some faults.DigestLength }
    ensures short_digest { fault_in 0x50 (digest (four 1) 19) ≡ Some faults.DigestLength }
    ensures algorithm { fault_in 0x50 (digest (four 9) 32) ≡ Some faults.UnknownAlgorithm }
    ensures second { fault_in 0x50 (digest (four 2) 32 ++ digest (four 2) 32)
        ≡ Some faults.SecondDigest }
    ensures no_stage { fault_in 0x11 (digest (four 2) 32) ≡ Some faults.NoStage }
    ensures stage_length { fault_in 0x11 (codes "StgH" ++ four 20 ++ replicate 12 0)
        ≡ Some faults.NoStage }
    ensures entry { fault_in 0x11 (stage 16 16) ≡ Some faults.EntryOutside }
{}
