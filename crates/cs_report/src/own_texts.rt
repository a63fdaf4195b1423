// What the program says of itself.
ghost use Rattle.std.specs.Prelude.{◌≡◌};
ghost use Rattle.cs_report.specs.OwnTexts.{help_text, version_text};

/// What `help` puts: a line for each command.
#[tactic(auto, unfolding(crate::specs::OwnTexts::help_text))]
pub fn help_text() -> &'static [u8]
    ensures { result.now ≡ help_text }
{
    b"cslow: one Yosys netlist for C interleaved threads
usage:
  cslow slow IN OUT CERT DELAYS -c C [--images IMAGES]
  cslow sim NET STIM
  cslow sim-context NET STIM IMAGES K C
  cslow mix OUT STREAMS
  cslow part K C FILE
  cslow upgrade OLD NEW
  cslow help
  cslow version
netlists are Yosys JSON; see README.md
"
}

/// What `version` puts.
#[tactic(auto, unfolding(crate::specs::OwnTexts::version_text))]
pub fn version_text() -> &'static [u8]
    ensures { result.now ≡ version_text }
{
    b"cslow 1.0.0\n"
}
