// The chart of a pair as an SVG picture: a row a signal, a column a cycle of the hypercycle, a box a run, the load of each cycle
// under it with the CAP as a line.
#![tactic(auto)]

ghost use Rattle.std.specs.Prelude.{◌≤◌, ◌<◌, ◌≡◌};

use console::Stop;
use std::io;
use timetable::Timetable;

// In pixels: what stands left of the cycles and above the rows, the height of a row, and that of the highest load.
const LEFT: usize = 220;

const TOP: usize = 30;

const ROW: usize = 14;

const LOAD: usize = 100;

// A chart of h cycles and n signals.
#[derive(Clone, Copy)]
struct Chart<'a> {
    rt: &'a HostRuntime,
    table: &'a Timetable,
    h: usize,
    n: usize,
    ghost cycles: { h ≤ 240 },
    ghost signals: { n ≤ 64 },
}

impl<'a> Chart<'a> {
    // How wide a cycle is: as wide as the page allows, from 4 to 24.
    fn column(self) -> usize
        ensures { (1 ≤ result) × (result ≤ 24) }
    {
        match self.h {
            0..40 => 24,
            40..80 => 12,
            80..160 => 6,
            _ => 4,
        }
    }

    // Every how many cycles there is a number.
    fn tick(self) -> usize
        ensures { 1 ≤ result }
    {
        match self.h {
            0..40 => 1,
            40..80 => 5,
            _ => 10,
        }
    }

    // Where cycle c starts.
    fn x_of(self, c: usize) -> usize
        requires { c ≤ 240 }
        ensures { result ≤ 6000 }
    {
        LEFT + self.column() * c
    }

    // Where the cycles end, and where the rows do.
    fn right(self) -> usize
        ensures { result ≤ 6000 }
    {
        self.x_of(self.h)
    }

    fn bottom(self) -> usize
        ensures { result ≤ 930 }
    {
        TOP + ROW * self.n
    }

    // The line from which the loads go up.
    fn base(self) -> usize
        ensures { (100 ≤ result) × (result ≤ 1050) }
    {
        self.bottom() + LOAD + 20
    }

    fn draw(self) -> io::Result<()> {
        self.draw_page()?;
        self.draw_ticks()?;
        self.draw_rows()?;
        self.draw_area()?;
        println!(self.rt; "</svg>")
    }

    // The start of the picture.
    fn draw_page(self) -> io::Result<()> {
        print!(self.rt;
            "<svg xmlns=\"http://www.w3.org/2000/svg\" width=\"{}\"",
            self.right() + 150
        )?;
        print!(self.rt; " height=\"{}\"", self.base() + 20)?;
        println!(self.rt; " font-family=\"monospace\" font-size=\"10\">")?;
        println!(self.rt; "<rect width=\"100%\" height=\"100%\" fill=\"white\"/>")
    }

    // A line of this colour from one point to another.
    fn draw_line(self, colour: &str, from: (usize, usize), to: (usize, usize)) -> io::Result<()> {
        let (x, y) = from;
        let (to_x, to_y) = to;
        println!(self.rt; "<path stroke=\"{colour}\" d=\"M{x} {y}L{to_x} {to_y}\"/>")
    }

    // The number of a cycle above the rows, with a line down through them.
    fn draw_tick(self, c: usize) -> io::Result<()>
        requires { c ≤ 240 }
    {
        let x = self.x_of(c);
        self.draw_line("#ddd", (x, TOP), (x, self.base()))?;
        println!(self.rt; "<text x=\"{x}\" y=\"{}\">{c}</text>", TOP - 6)
    }

    fn draw_ticks(self) -> io::Result<()> {
        let every = self.tick();
        for c in 0..self.h {
            if c % every == 0 {
                self.draw_tick(c)?;
            }
        }
        Ok(())
    }

    // The boxes of a signal that runs with this period and phase, in its row at y.
    fn draw_runs(self, period: u8, phase: u8, y: usize) -> io::Result<()> {
        let wide = self.column() - 1;
        for c in 0..self.h {
            if c.checked_rem(usize::from(period)) == Some(usize::from(phase)) {
                print!(self.rt; "M{} {y}h{wide}v11h-{wide}z", self.x_of(c))?;
            }
        }
        Ok(())
    }

    // The row of signal x: its number, label, period and phase, and its runs.
    fn draw_row(self, x: usize) -> io::Result<()>
        requires { x < 64 }
    {
        let Timetable {
            labels,
            periods,
            phases,
            ..
        } = self.table;
        let (label, period, phase) = (labels[x], periods[x], phases[x]);
        let y = TOP + ROW * x;
        print!(self.rt; "<text x=\"4\" y=\"{}\">{x} label {label}", y + 10)?;
        println!(self.rt; " period {period} phase {phase}</text>")?;
        print!(self.rt; "<path fill=\"#36c\" d=\"")?;
        self.draw_runs(period, phase, y)?;
        println!(self.rt; "\"/>")
    }

    fn draw_rows(self) -> io::Result<()> {
        for x in 0..self.n {
            self.draw_row(x)?;
        }
        Ok(())
    }

    // The highest load, at least 1.
    fn highest(self) -> u32
        ensures { 1 ≤ result }
    {
        self.table.loads.iter().copied().fold(0, u32::max).max(1)
    }

    // The highest load that is drawn: the CAP's too, where there is one of at most four times the loads.
    fn scale(self) -> u32
        ensures { 1 ≤ result }
    {
        let most = self.highest();
        match self.table.cap {
            Some(limit) if limit <= most.saturating_mul(4) => most.max(limit),
            _ => most,
        }
    }

    // The loads of all cycles under the rows, the highest that is drawn being `most`.
    fn draw_loads(self, most: u32) -> io::Result<()>
        requires { 1 ≤ most }
    {
        let wide = self.column() - 1;
        for c in 0..self.h {
            let high = height(self.table.loads[c], most);
            let top = self.base() - high;
            print!(self.rt; "M{} {top}h{wide}v{high}h-{wide}z", self.x_of(c))?;
        }
        Ok(())
    }

    // The CAP as a line; one above what is drawn is only named.
    fn draw_cap(self, limit: u32, most: u32) -> io::Result<()>
        requires { 1 ≤ most }
    {
        let right = self.right();
        let y = self.base() - height(limit, most);
        print!(self.rt; "<text x=\"{}\" y=\"{}\">CAP {limit}", right + 4, y + 3)?;
        if most < limit {
            return println!(self.rt; ", above</text>");
        }
        println!(self.rt; "</text>")?;
        self.draw_line("#c00", (LEFT, y), (right, y))
    }

    // The area of the loads under the rows.
    fn draw_area(self) -> io::Result<()> {
        let base = self.base();
        let most = self.scale();
        println!(self.rt;
            "<text x=\"4\" y=\"{base}\">load, highest {}</text>",
            self.highest()
        )?;
        print!(self.rt; "<path fill=\"#999\" d=\"")?;
        self.draw_loads(most)?;
        println!(self.rt; "\"/>")?;
        self.draw_line("#000", (LEFT, base), (self.right(), base))?;
        if let Some(limit) = self.table.cap {
            self.draw_cap(limit, most)?;
        }
        Ok(())
    }
}

// How high a load is drawn, where the highest that is drawn is `most`.
fn height(load: u32, most: u32) -> usize
    requires { 1 ≤ most }
    ensures { result ≤ 100 }
{
    (100 * u64::from(load.min(most)) / u64::from(most)) as usize
}

// Draws the chart of a pair on standard output, or prints how it is refused.
pub fn print_chart(rt: &HostRuntime, program: &[u8], schedule: &[u8]) -> Result<(), Stop> {
    let table = timetable::of_pair(program, schedule).or_else(|fault| explain::refuse_pair(
        rt, fault, program, schedule,
    ))?;
    let chart = Chart {
        rt,
        table: &table,
        h: table.hypercycle.min(240),
        n: table.signals.min(64),
    };
    chart.draw()?;
    Ok(())
}
