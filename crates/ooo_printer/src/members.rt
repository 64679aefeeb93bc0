use crate::expressions::expression;
use crate::paper::Paper;
use crate::setups::{args, constructor};
use crate::statements::block;
use ooo_syntax::{
    ChannelWord, Channels, Children, Constant, FieldForm, Fields, Function, Member, Module, Param,
    Part, PortWord, Ports, ResultForm,
};

pub(crate) fn module(paper: &mut Paper, made: &Module) {
    paper.put("SC_MODULE (");
    paper.word(&made.name);
    paper.put(") {");
    for part in made.members.as_slice() {
        member(paper, part);
    }
    paper.put("} ;");
}

pub(crate) fn constant(paper: &mut Paper, made: &Constant) {
    paper.put(if made.is_static {
        "static const"
    } else {
        "const"
    });
    paper.type_name(&made.form);
    paper.word(&made.name);
    paper.put("=");
    expression(paper, made.value.get());
    paper.put(";");
}

pub(crate) fn params(paper: &mut Paper, list: &[Param]) {
    for (n, param) in list.iter().enumerate() {
        paper.between(n, ",");
        paper.type_name(&param.form);
        paper.word(&param.name);
    }
}

pub(crate) fn channel_word(channel: ChannelWord) -> &'static str {
    match channel {
        ChannelWord::Signal => "sc_signal",
        ChannelWord::Fifo => "sc_fifo",
    }
}

fn member(paper: &mut Paper, part: &Member) {
    match part {
        Member::Public => paper.put("public :"),
        Member::Constant(made) => constant(paper, made),
        Member::HasProcess(name) => {
            paper.put("SC_HAS_PROCESS (");
            paper.word(name);
            paper.put(") ;");
        }
        Member::Fields(made) => fields(paper, made),
        Member::Ports(made) => ports(paper, made),
        Member::Clocks(names) => {
            paper.put("sc_in_clk");
            paper.words(names.as_slice());
            paper.put(";");
        }
        Member::Channels(made) => channels(paper, made),
        Member::Events(names) => {
            paper.put("sc_event");
            paper.words(names.as_slice());
            paper.put(";");
        }
        Member::Children(made) => children(paper, made),
        Member::Function(made) => function(paper, made),
        Member::Constructor(made) => constructor(paper, made),
    }
}

fn fields(paper: &mut Paper, made: &Fields) {
    if made.is_const {
        paper.put("const");
    }
    paper.type_name(&made.form);
    for (n, field) in made.fields.as_slice().iter().enumerate() {
        paper.between(n, ",");
        paper.word(&field.name);
        match &field.form {
            FieldForm::Plain => {}
            FieldForm::Length(e) => {
                paper.put("[");
                expression(paper, e.get());
                paper.put("]");
            }
            FieldForm::Value(e) => {
                paper.put("=");
                expression(paper, e.get());
            }
        }
    }
    paper.put(";");
}

fn ports(paper: &mut Paper, made: &Ports) {
    paper.put(match made.port {
        PortWord::In => "sc_in <",
        PortWord::Out => "sc_out <",
        PortWord::Inout => "sc_inout <",
        PortWord::FifoIn => "sc_fifo_in <",
        PortWord::FifoOut => "sc_fifo_out <",
    });
    paper.type_name(&made.form);
    paper.put(">");
    paper.words(made.names.as_slice());
    paper.put(";");
}

fn channels(paper: &mut Paper, made: &Channels) {
    paper.put(channel_word(made.channel));
    paper.put("<");
    paper.type_name(&made.form);
    paper.put(">");
    parts(paper, made.parts.as_slice());
    paper.put(";");
}

fn children(paper: &mut Paper, made: &Children) {
    paper.word(&made.module_name);
    parts(paper, made.parts.as_slice());
    paper.put(";");
}

fn parts(paper: &mut Paper, list: &[Part]) {
    for (n, part) in list.iter().enumerate() {
        paper.between(n, ",");
        paper.word(&part.name);
        if let Some(given) = &part.args {
            paper.put("{");
            args(paper, given.as_slice());
            paper.put("}");
        }
    }
}

fn function(paper: &mut Paper, made: &Function) {
    match &made.result {
        ResultForm::Nothing => paper.put("void"),
        ResultForm::Value(form) => paper.type_name(form),
    }
    paper.word(&made.name);
    paper.put("(");
    params(paper, made.params.as_slice());
    paper.put(")");
    block(paper, made.body.as_slice());
}
