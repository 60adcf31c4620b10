//! What the lints of a configuration say of its processors that are made ready.
#![tactic(auto)]

ghost use Rattle.std.specs.Prelude.{List, ℕ, []};
ghost use Rattle.bt_value.specs.declared.val.Val.{Val};
ghost use Rattle.bt_schema.specs.declared.lints.Lint.{Lint};
ghost use Rattle.bt_config.specs.Violations.{AreViolations};
ghost use Rattle.bt_compile.specs.Compiled.{IsFaultAt};
ghost use Rattle.bt_compile.specs.declared.fault.ProcsFault.TheVariants as fault;
ghost use Rattle.bt_compile_laws.specs.Patterns.{IsPatternLintAt};

/// A law: of a configuration without violations processors are refused with a lint only for a pattern
/// that is refused. The call does nothing.
pub fn lints_are_of_patterns()
    ensures { (config : Val) (pointer : List ℕ) (l : Lint) → AreViolations config [] → IsFaultAt config pointer (fault.Lint l)
        → IsPatternLintAt config pointer l }
{}
