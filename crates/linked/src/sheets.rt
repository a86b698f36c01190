// The study sheet as lent bytes, and its cases stored by column, for C and other languages.
ghost use Rattle.lent_sheet.specs.Calls.{withdraw, close, Adds, Acts, Shows, Totalled, Archives};
ghost use Rattle.linked.specs.Columns.{TurnedBack};

use refusals::Reason;

// The case of a frame's bytes, right after the last one; its place is told.
pub fn yakepuhi_sheet_add(sheet: &mut [u8], frame: &[u8], place: &mut u64) -> u64
    ensures { Adds frame.now sheet.old place.old result sheet.new place.new }
{
    match lent_sheet::add(sheet, frame) {
        Ok(k) => {
            *place = k as u64;
            0
        }
        Err(r) => r.number(),
    }
}

// The case at a place goes and leaves a gap.
pub fn yakepuhi_sheet_withdraw(sheet: &mut [u8], place: u64) -> u64
    ensures { Acts (withdraw place) sheet.old result sheet.new }
{
    refusals::code_of(lent_sheet::withdraw(sheet, place))
}

// The gaps go, the cases in order from place 1 on.
pub fn yakepuhi_sheet_close(sheet: &mut [u8]) -> u64
    ensures { Acts close sheet.old result sheet.new }
{
    refusals::code_of(lent_sheet::close(sheet))
}

// The frame of the case at a place.
pub fn yakepuhi_sheet_case(sheet: &[u8], place: u64, area: &mut [u8]) -> u64
    ensures { Shows place sheet.now area.old result area.new }
{
    refusals::code_of(lent_sheet::case_at(sheet, place, area))
}

// The totals: the number of cases, the greatest upper end, and the first place that has it, 0 for none.
pub fn yakepuhi_sheet_totals(
    sheet: &[u8],
    count: &mut u64,
    greatest: &mut u64,
    place: &mut u64,
) -> u64
    ensures { Totalled sheet.now count.old greatest.old place.old result count.new greatest.new place.new }
{
    match lent_sheet::totals(sheet) {
        Ok(all) => {
            *count = all.cases as u64;
            *greatest = all.greatest;
            *place = all.place as u64;
            0
        }
        Err(r) => r.number(),
    }
}

// The frames of the cases by column.
pub fn yakepuhi_columns_from_sheet(sheet: &[u8], area: &mut [u8]) -> u64
    ensures { Archives sheet.now area.old result area.new }
{
    refusals::code_of(lent_sheet::store(sheet, area))
}

// The frames of stored columns, 24 bytes each.
pub fn yakepuhi_frames_from_columns(stored: &[u8], area: &mut [u8]) -> u64
    ensures { TurnedBack stored.now area.old result area.new }
{
    refusals::code_of(columns::restore(stored, area))
}
