// A spec applied to the record: one field changes, or the list that it needs is full.
ghost use Rattle.std.specs.Prelude.{◌≡◌, MatchOption};
ghost use Rattle.fields.specs.declared.numbers.Fault.TheVariants.{ListFull};
ghost use Rattle.layout.specs.declared.record.DataLayout.{DataLayout};
ghost use Rattle.datalayout.specs.Apply.{done_with, refused_by, applied};

use fields::numbers::Fault;
use layout::record::DataLayout;
use spec::spec::Spec;

// The layout is as it was where the spec is refused.
// Kept: what may not change: the definition (`refused_by`) has the layout beside a refusal too.
#[derive(Drop)]
pub struct Applied {
    pub outcome: Result<(), Fault>,
    pub layout: DataLayout,
}

fn done(layout: DataLayout) -> Applied
    ensures { result ≡ done_with layout }
{
    Applied {
        outcome: Ok(()),
        layout,
    }
}

fn refused(fault: Fault, layout: DataLayout) -> Applied
    ensures { result ≡ refused_by fault layout }
{
    Applied {
        outcome: Err(fault),
        layout,
    }
}

// "31 exactly if one more is needed".
fn put<R: Drop, F: FnOnce(DataLayout, R) -> DataLayout>(
    layout: DataLayout,
    rows: Option<R>,
    with: F,
) -> Applied
    requires { F.IsAlwaysCallable with }
    ensures { MatchOption rows (result ≡ refused_by ListFull layout)
        (λ some. (next : DataLayout) × F.post with layout some next × (result ≡ done_with next)) }
{
    match rows {
        Some(rows) => done(with(layout, rows)),
        None => refused(Fault::ListFull, layout),
    }
}

#[tactic(auto, unfolding(crate::specs::Apply::applied))]
pub fn apply(layout: DataLayout, read: Result<Spec, Fault>) -> Applied
    ensures { result ≡ applied layout read }
{
    match read {
        Ok(Spec::Endianness(endian)) => done(layout.with_endianness(endian)),
        Ok(Spec::Stack(align)) => done(layout.with_stack(Some(align))),
        Ok(Spec::Space(memory, space)) => done(layout.with_space(memory, space)),
        Ok(Spec::Typed(row)) => {
            let types = layout.type_alignments.update(row);
            put(layout, types, DataLayout::with_types)
        }
        Ok(Spec::Pointer(row)) => {
            let pointers = layout.pointer_alignments.update(row);
            put(layout, pointers, DataLayout::with_pointers)
        }
        Ok(Spec::FunctionPointer(align)) => done(layout.with_function_pointer(Some(align))),
        Ok(Spec::Mangled(mangling)) => done(layout.with_mangling(Some(mangling))),
        Ok(Spec::Numbered(listed, numbers)) => done(layout.with_numbers(listed, numbers)),
        Err(fault) => refused(fault, layout),
    }
}
