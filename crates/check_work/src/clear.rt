// The work memory after a call of the closing check.
ghost use Rattle.std.specs.Prelude.{◌≡◌};
ghost use Rattle.check_work.specs.Work.{memory_of, cleared_memory};

// +0.0.
pub fn clear_work(
    impulses: &mut [f64],
    size_impulses: &mut [f64],
    values: &mut [f64],
    sizes: &mut [f64],
)
    ensures { memory_of impulses.new size_impulses.new values.new sizes.new
        ≡ cleared_memory (memory_of impulses.old size_impulses.old values.old sizes.old) }
{
    loops::clear(impulses);
    loops::clear(size_impulses);
    loops::clear(values);
    loops::clear(sizes);
}
