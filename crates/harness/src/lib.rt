// The library's boundary to C: each call of the library as a plain C function over numbers and slices.
// Kept in all its modules, since C calls them: numbers for refusals, numbers one by one, and a function for each call.
#![tactic(auto)]

pub mod answers;
pub mod files;
pub mod filtering;
pub mod runs;
pub mod words;

ghost use Rattle.element.specs.Reflect.{Reflects};

// Public: the element reflected, into `out`. Refusals 4, 5, 6, 7, 11.
#[unsafe(no_mangle)]
pub extern "C" fn wt_reflect(side: u64, cells: &[u8], out: &mut [u8]) -> u32
    ensures { Reflects side cells.now out.old result out.new }
{
    answers::number(element::reflect(side as usize, cells, out))
}
