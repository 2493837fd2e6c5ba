// The subranges of the scale, and what each carries.
ghost use Rattle.std.specs.Prelude.{◌≡◌, pos, refl};
ghost use Rattle.quantity.specs.declared.temperature.Celsius.{Celsius};
ghost use Rattle.law.specs.declared.cell.Cell.{Cell};
ghost use Rattle.law.specs.declared.cell.Cell.TheVariants as cell;
ghost use Rattle.law.specs.declared.name.Name.{Name};
ghost use Rattle.law.specs.declared.subrange.Form.{Form};
ghost use Rattle.law.specs.declared.subrange.Form.TheVariants as form;
ghost use Rattle.law.specs.declared.subrange.Subrange.{Subrange};
ghost use Rattle.law.specs.declared.subrange.Subrange.TheVariants as subrange;
ghost use Rattle.law.specs.Cells.{step};
ghost use Rattle.law.specs.Subranges.{carried, cells as cells_of, coefficients as coefficients_of, to_silver, subrange_named};

use crate::cell::Cell;
use crate::name::Name;
use quantity::Celsius;

// The form of a deviation function: powers of W - 1, as many as there are coefficients; to silver, three of them and d(W - W(Al))² from aluminium up.
#[derive(Clone, Copy, Debug, PartialEq, Eq)]
pub enum Form {
    Powers,
    PowersToSilver,
}

impl Form {
    // Whether it is that of ag, which alone has the d term and W(Al).
    pub fn to_silver(self) -> bool
        ensures { result ≡ to_silver self }
    {
        self == Form::PowersToSilver
    }
}

// The type of a subrange: what it carries, by constants and by functions without `self`.
pub trait Carries {
    ghost subrange: { Subrange };

    const NAME: Name;

    ghost NAME: { Name };

    // The first step.
    const BOTTOM: Celsius;

    ghost BOTTOM: { Celsius };

    // The cell at whose fixed point it ends.
    const END: Cell;

    ghost END: { Cell };

    const FORM: Form;

    ghost FORM: { Form };

    ghost name_is: { NAME.0 ≡ (carried subrange).name };

    ghost bottom_is: { BOTTOM.0 ≡ (carried subrange).bottom };

    ghost end_is: { step END ≡ (carried subrange).top };

    ghost form_is: { FORM ≡ (carried subrange).form };

    // The cells that it needs, from the lowest up.
    fn cells() -> &'static [Cell]
        ensures { result.now ≡ cells_of subrange };

    // The last step.
    fn top() -> Celsius
        ensures { result.0 ≡ (carried subrange).top }
    {
        Self::END.step()
    }

    // How many of a, b, c, d it uses: as many as it needs cells.
    fn coefficients() -> u64
        ensures { result ≡ coefficients_of subrange }
    {
        Self::cells().len() as u64
    }
}

#[derive(Clone, Copy)]
pub struct Ga;

impl Carries for Ga {
    ghost subrange = { subrange.Ga };

    const NAME: Name = Name(0x6761);

    ghost NAME = { record { 0 = 0x6761 } };

    const BOTTOM: Celsius = Celsius(0);

    ghost BOTTOM = { record { 0 = pos 0 } };

    const END: Cell = Cell::Ga;

    ghost END = { cell.Ga };

    const FORM: Form = Form::Powers;

    ghost FORM = { form.Powers };

    ghost name_is = { refl };

    ghost bottom_is = { refl };

    ghost end_is = { refl };

    ghost form_is = { refl };

    fn cells() -> &'static [Cell] {
        &[Cell::Ga]
    }
}

#[derive(Clone, Copy)]
pub struct In;

impl Carries for In {
    ghost subrange = { subrange.In };

    const NAME: Name = Name(0x696e);

    ghost NAME = { record { 0 = 0x696e } };

    const BOTTOM: Celsius = Celsius(0);

    ghost BOTTOM = { record { 0 = pos 0 } };

    const END: Cell = Cell::In;

    ghost END = { cell.In };

    const FORM: Form = Form::Powers;

    ghost FORM = { form.Powers };

    ghost name_is = { refl };

    ghost bottom_is = { refl };

    ghost end_is = { refl };

    ghost form_is = { refl };

    fn cells() -> &'static [Cell] {
        &[Cell::In]
    }
}

#[derive(Clone, Copy)]
pub struct Sn;

impl Carries for Sn {
    ghost subrange = { subrange.Sn };

    const NAME: Name = Name(0x736e);

    ghost NAME = { record { 0 = 0x736e } };

    const BOTTOM: Celsius = Celsius(0);

    ghost BOTTOM = { record { 0 = pos 0 } };

    const END: Cell = Cell::Sn;

    ghost END = { cell.Sn };

    const FORM: Form = Form::Powers;

    ghost FORM = { form.Powers };

    ghost name_is = { refl };

    ghost bottom_is = { refl };

    ghost end_is = { refl };

    ghost form_is = { refl };

    fn cells() -> &'static [Cell] {
        &[Cell::In, Cell::Sn]
    }
}

#[derive(Clone, Copy)]
pub struct Zn;

impl Carries for Zn {
    ghost subrange = { subrange.Zn };

    const NAME: Name = Name(0x7a6e);

    ghost NAME = { record { 0 = 0x7a6e } };

    const BOTTOM: Celsius = Celsius(0);

    ghost BOTTOM = { record { 0 = pos 0 } };

    const END: Cell = Cell::Zn;

    ghost END = { cell.Zn };

    const FORM: Form = Form::Powers;

    ghost FORM = { form.Powers };

    ghost name_is = { refl };

    ghost bottom_is = { refl };

    ghost end_is = { refl };

    ghost form_is = { refl };

    fn cells() -> &'static [Cell] {
        &[Cell::Sn, Cell::Zn]
    }
}

#[derive(Clone, Copy)]
pub struct Al;

impl Carries for Al {
    ghost subrange = { subrange.Al };

    const NAME: Name = Name(0x616c);

    ghost NAME = { record { 0 = 0x616c } };

    const BOTTOM: Celsius = Celsius(0);

    ghost BOTTOM = { record { 0 = pos 0 } };

    const END: Cell = Cell::Al;

    ghost END = { cell.Al };

    const FORM: Form = Form::Powers;

    ghost FORM = { form.Powers };

    ghost name_is = { refl };

    ghost bottom_is = { refl };

    ghost end_is = { refl };

    ghost form_is = { refl };

    fn cells() -> &'static [Cell] {
        &[Cell::Sn, Cell::Zn, Cell::Al]
    }
}

#[derive(Clone, Copy)]
pub struct Ag;

impl Carries for Ag {
    ghost subrange = { subrange.Ag };

    const NAME: Name = Name(0x6167);

    ghost NAME = { record { 0 = 0x6167 } };

    const BOTTOM: Celsius = Celsius(0);

    ghost BOTTOM = { record { 0 = pos 0 } };

    const END: Cell = Cell::Ag;

    ghost END = { cell.Ag };

    const FORM: Form = Form::PowersToSilver;

    ghost FORM = { form.PowersToSilver };

    ghost name_is = { refl };

    ghost bottom_is = { refl };

    ghost end_is = { refl };

    ghost form_is = { refl };

    fn cells() -> &'static [Cell] {
        &[Cell::Sn, Cell::Zn, Cell::Al, Cell::Ag]
    }
}

#[derive(Clone, Copy, Debug, PartialEq, Eq)]
pub enum Subrange {
    Ga,
    In,
    Sn,
    Zn,
    Al,
    Ag,
}

// What the type of a subrange carries, as a value.
#[derive(Clone, Copy)]
struct Carried {
    name: Name,
    bottom: Celsius,
    top: Celsius,
    cells: &'static [Cell],
    form: Form,
}

fn carried_by<S: Carries>() -> Carried
    ensures name { result.name.0 ≡ (carried S.subrange).name }
    ensures bottom { result.bottom.0 ≡ (carried S.subrange).bottom }
    ensures top { result.top.0 ≡ (carried S.subrange).top }
    ensures cells { result.cells.now ≡ (carried S.subrange).cells }
    ensures form { result.form ≡ (carried S.subrange).form }
{
    Carried {
        name: S::NAME,
        bottom: S::BOTTOM,
        top: S::top(),
        cells: S::cells(),
        form: S::FORM,
    }
}

impl Subrange {
    pub const ALL: [Subrange; 6] = [
        Subrange::Ga,
        Subrange::In,
        Subrange::Sn,
        Subrange::Zn,
        Subrange::Al,
        Subrange::Ag,
    ];

    fn carried(self) -> Carried
        ensures name { result.name.0 ≡ (carried self).name }
        ensures bottom { result.bottom.0 ≡ (carried self).bottom }
        ensures top { result.top.0 ≡ (carried self).top }
        ensures cells { result.cells.now ≡ (carried self).cells }
        ensures form { result.form ≡ (carried self).form }
    {
        match self {
            Subrange::Ga => carried_by::<Ga>(),
            Subrange::In => carried_by::<In>(),
            Subrange::Sn => carried_by::<Sn>(),
            Subrange::Zn => carried_by::<Zn>(),
            Subrange::Al => carried_by::<Al>(),
            Subrange::Ag => carried_by::<Ag>(),
        }
    }

    pub fn name(self) -> Name
        ensures { result.0 ≡ (carried self).name }
    {
        self.carried().name
    }

    // The first step.
    pub fn bottom(self) -> Celsius
        ensures { result.0 ≡ (carried self).bottom }
    {
        self.carried().bottom
    }

    // The last step.
    pub fn top(self) -> Celsius
        ensures { result.0 ≡ (carried self).top }
    {
        self.carried().top
    }

    pub fn cells(self) -> &'static [Cell]
        ensures { result.now ≡ cells_of self }
    {
        self.carried().cells
    }

    // How many of a, b, c, d it uses: as many as it needs cells.
    pub fn coefficients(self) -> u64
        ensures { result ≡ coefficients_of self }
    {
        self.cells().len() as u64
    }

    pub fn form(self) -> Form
        ensures { result ≡ (carried self).form }
    {
        self.carried().form
    }

    pub fn named(name: Name) -> Option<Subrange>
        ensures { result ≡ subrange_named name.0 }
    {
        Subrange::ALL.iter().copied().find(|s| s.name().0 == name.0)
    }
}
