//! Laws.
ghost use Rattle.std.specs.Prelude.{◌≡◌, codes, filter, map, not, true};
ghost use Rattle.std.specs.Str.{bytes_eq};
ghost use Rattle.bt_schema.specs.Table.{rows};
ghost use Rattle.bt_schema.specs.declared.places.Place.TheVariants as place;
ghost use Rattle.bt_compile.specs.Kinds.{kinds, place_of};

/// A law: the kinds of processors are those of the table of fields, all but the label, each with the
/// place of what stands there. The call does nothing.
pub fn kinds_are_known()
    ensures { map (λ row. (row.0, place_of row.1)) kinds
        ≡ filter (λ row. not (bytes_eq row.0 (codes "label"))) (rows true place.Processor) }
{}
