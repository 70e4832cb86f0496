// Whole payroll files.
ghost use Rattle.std.specs.Prelude.{◌≡◌};
ghost use Rattle.payroll_file.specs.PayrollFile.{check_of};
ghost use Rattle.answer_rows.specs.Payroll.{payroll_numbers};

use answer_rows::payroll::PAYROLL_NUMBERS;

// The row of a payroll file.
#[unsafe(no_mangle)]
pub extern "C" fn lossivurn_payroll_check(file: &[u8], row: &mut [u64; PAYROLL_NUMBERS])
    ensures { row.new ≡ payroll_numbers (check_of file.now) }
{
    c_files::payroll::lossivurn_payroll_check(file, row)
}
