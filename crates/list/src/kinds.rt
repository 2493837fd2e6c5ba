// The kinds of lists, and which of them a program takes.
ghost use Rattle.std.specs.Prelude.{◌≡◌};
ghost use Rattle.line.specs.Kinds.{input_header, output_header};
ghost use Rattle.list.specs.Kinds.{kind_of, taken, headed};

// A list of readings, of records of ratios or of resistances, of steps to be taken forward, or of tolerance tests.
#[derive(Clone, Copy, Debug, PartialEq, Eq)]
pub enum Kind {
    Readings,
    Records,
    Resistances,
    Steps,
    Tolerances,
}

// Whose list it is: the launch's are readings, the bench's all others.
#[derive(Clone, Copy, Debug, PartialEq, Eq)]
pub enum Desk {
    Launch,
    Bench,
}

impl Kind {
    // The header of a list of the kind.
    pub fn header(self) -> &'static [u8]
        ensures { result.now ≡ input_header (kind_of self) }
    {
        match self {
            Kind::Readings => b"id,law,r,r0,a,b,c,d,wal",
            Kind::Records => b"id,subrange,hg,ga,in,sn,zn,al,ag",
            Kind::Resistances => b"id,subrange,hg,hg0,ga,ga0,in,in0,sn,sn0,zn,zn0,al,al0,ag,ag0",
            Kind::Steps => b"id,law,t,a,b,c,d,wal",
            Kind::Tolerances => b"id,class,t,r,r0",
        }
    }

    // The header of the answer to it, with its CRLF.
    pub fn answer_header(self) -> &'static [u8]
        ensures { result.now ≡ output_header (kind_of self) }
    {
        match self {
            Kind::Readings => b"id,law,t,code\r\n",
            Kind::Records => b"id,law,a,b,c,d,wal,code\r\n",
            Kind::Resistances => b"id,law,a,b,c,d,wal,code\r\n",
            Kind::Steps => b"id,law,w,code\r\n",
            Kind::Tolerances => b"id,class,result,error,code\r\n",
        }
    }
}

impl Desk {
    // The kinds of lists that are taken.
    pub fn kinds(self) -> &'static [Kind]
        ensures { result.now ≡ taken self }
    {
        match self {
            Desk::Launch => &[Kind::Readings],
            Desk::Bench => &[
                Kind::Records,
                Kind::Resistances,
                Kind::Steps,
                Kind::Tolerances,
            ],
        }
    }

    // The kind of list whose header a line is.
    #[tactic(auto, unfolding(crate::specs::Kinds::headed))]
    pub fn headed(self, line: &[u8]) -> Option<Kind>
        ensures { result ≡ headed self line.now }
    {
        self.kinds()
            .iter()
            .copied()
            .find(|kind| kind.header() == line)
    }
}
